// Whether a directory breaks a rule. Every half and every byte of every record is judged, and each record is held against all later ones.
ghost use Rattle.std.specs.Prelude.{◌≡◌, ◌<◌, length};
ghost use Rattle.lists.specs.Search.{any_of, all_of};
ghost use Rattle.esi_rules.specs.Packed.{half_kept, byte_kept};
ghost use Rattle.esi_rules.specs.Directory.{id_width, halves_kept, record_kept, sound};
ghost use Rattle.esi_rules.specs.Distinct.{distinct};
ghost use Rattle.esi_rules.specs.Keys.{has_either, clashes};

use crate::keys::Record;
use crate::{halves, keys, texts};
use esi_rules::Key;
use records::RECORD_LENGTH;

// The byte of a record that has the digit count.
const COUNT_AT: usize = 11;

// Whether a half is a digit, where it is used, and 15 where it is not.
fn half_kept(half: u8, used: bool) -> bool
    ensures { result ≡ half_kept used half }
{
    if used {
        half <= halves::LAST_DIGIT
    } else {
        half == halves::UNUSED
    }
}

// Whether both halves of a byte are: it is byte `place` of an ESI ID of so many digits.
fn byte_kept(byte: u8, place: usize, count: usize) -> bool
    requires { place < id_width }
    ensures { result ≡ byte_kept count place byte }
{
    half_kept(halves::high(byte), 2 * place < count)
        && half_kept(halves::low(byte), 2 * place + 1 < count)
}

// Whether all halves of an ESI ID's bytes are.
fn halves_kept(bytes: &[u8], count: usize) -> bool
    requires { length bytes.now ≡ id_width }
    ensures { result ≡ halves_kept count bytes.now }
{
    bytes
        .iter()
        .enumerate()
        .all(|(place, byte)| byte_kept(*byte, place, count))
}

// Whether a record breaks no rule by itself.
fn record_kept(bytes: &Record) -> bool
    ensures { result ≡ record_kept bytes.now }
{
    let count = bytes[COUNT_AT] as usize;
    if !texts::is_count(count) {
        return false;
    }
    if !halves_kept(&bytes[..texts::ID_BYTES], count) {
        return false;
    }
    keys::premise_of(bytes) != 0 && keys::zeros_of(bytes) == 0
}

// Whether none of a directory's records does.
fn records_kept(records: &[Record]) -> bool
    ensures { result ≡ all_of record_kept records.now }
{
    records.iter().all(|record| record_kept(record))
}

// Whether one of some records has this ESI ID or this premise number.
fn stands_in(records: &[Record], key: Key, premise: u64) -> bool
    ensures { result ≡ any_of (has_either key premise) records.now }
{
    records.iter().any(|other| keys::key_of(other) == key || keys::premise_of(other) == premise)
}

// Whether no first twelve bytes and no premise number stand twice. Of records that are kept the first twelve
// bytes say which ESI ID each has.
fn none_twice(records: &[Record]) -> bool
    ensures { result ≡ distinct clashes records.now }
{
    let mut left = records;
    while let Some((first, later)) = left.split_first() {
        if stands_in(later, keys::key_of(first), keys::premise_of(first)) {
            return false;
        }
        left = later;
    }
    true
}

// Whether the directory breaks no rule and its length is a multiple of 24. In a function of its own the
// comparisons keep what they compare in registers.
#[inline(never)]
pub fn is_sound(directory: &[u8]) -> bool
    ensures { result ≡ sound directory.now }
{
    let (records, rest) = directory.as_chunks::<RECORD_LENGTH>();
    if !rest.is_empty() {
        return false;
    }
    records_kept(records) && none_twice(records)
}
