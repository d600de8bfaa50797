// Looking up.
ghost use Rattle.std.specs.Prelude.{◌≡◌, true, option_map};
ghost use Rattle.std.specs.List.{find};
ghost use Rattle.esi_rules.specs.Directory.{sound};
ghost use Rattle.esi_rules.specs.Directory.{records as directory_records};
ghost use Rattle.esi_rules.specs.Directory.{premise_of};
ghost use Rattle.esi_rules.specs.LookUp.{number, given_back, look_up};
ghost use Rattle.esi_rules.specs.Keys.{has_key};

use crate::{keys, soundness, texts};
use esi_rules::{Key, Refusal};
use records::RECORD_LENGTH;

// The number of an answer.
#[tactic(auto, unfolding(esi_rules::specs::LookUp::number))]
pub fn number_of(answer: Result<u64, Refusal>) -> u8
    ensures { result ≡ number answer }
{
    match answer {
        Ok(_) => 0,
        Err(refusal) => refusal as u8,
    }
}

// The premise number that an answer gives back: with a refusal 0.
pub fn given_back(answer: Result<u64, Refusal>) -> u64
    ensures { result ≡ given_back answer }
{
    answer.unwrap_or(0)
}

// The premise number of the first record with these twelve bytes, if there is one.
fn premise_of(directory: &[u8], key: Key) -> Option<u64>
    ensures { result ≡ option_map premise_of (find (has_key key) (directory_records directory.now)) }
{
    let (records, _) = directory.as_chunks::<RECORD_LENGTH>();
    records
        .iter()
        .find(|record| keys::key_of(*record) == key)
        .map(|record| keys::premise_of(record))
}

// The same as `look_up`, in a directory that is known to be sound: it is not tested again.
pub fn find(directory: &[u8], text: &[u8]) -> Result<u64, Refusal>
    requires { sound directory.now ≡ true }
    ensures { result ≡ look_up directory.now text.now }
{
    if !texts::is_id_text(text) {
        return Err(Refusal::TextMalformed);
    }
    let key = keys::key_of(&texts::packed_text(text));
    premise_of(directory, key).ok_or(Refusal::NoRecord)
}

// The premise number of a text's ESI ID.
pub fn look_up(directory: &[u8], text: &[u8]) -> Result<u64, Refusal>
    ensures { result ≡ look_up directory.now text.now }
{
    if !soundness::is_sound(directory) {
        return Err(Refusal::DirectoryUnsound);
    }
    find(directory, text)
}
