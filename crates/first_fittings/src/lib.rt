// Change 9 of document 02: the converter each way between the first fittings' records and ours, in code; its rules stand in
// `first_fittings_rules`. Neither call asks anything of its caller: every tape and every buffer is answered.
#![tactic(auto)]

ghost use Rattle.std.specs.Prelude.{ℕ, ◌≡◌, ◌++◌, ◌*◌, ◌/◌, ◌<◌, ◌≤◌, length, drop};
ghost use Rattle.first_fittings_rules.specs.Layout.{old_length, our_length, turned_record, records_of};
ghost use Rattle.first_fittings_rules.specs.Answers.{number};
ghost use Rattle.first_fittings_rules.specs.Conversions.{Way, to24, to20, converted, Promised};
ghost use Rattle.first_fittings_rules.proofs.Ways.{Into, into_ours, into_old};
ghost use Rattle.lists.specs.Search.{any_of};
ghost use Rattle.std.proofs.Common.{refl, rules};

use first_fittings_rules::{OLD_LENGTH, OUR_LENGTH, Refusal};

// Where each byte of a record comes from when its fields are turned; turned again they stand as before, so that it serves both ways.
const PLACES: [usize; 20] = [
    0, 1, 3, 2, 7, 6, 5, 4, 15, 14, 13, 12, 11, 10, 9, 8, 19, 18, 17, 16,
];

// The number of an answer.
#[tactic(auto, unfolding(first_fittings_rules::specs::Answers::number))]
pub fn number_of(answer: Result<usize, Refusal>) -> u8
    ensures { result ≡ number answer }
{
    match answer {
        Ok(_) => 0,
        Err(refusal) => refusal as u8,
    }
}

// Writes bytes 0 to 19 of a record, each field turned, to the front of a buffer; the rest stays.
fn turn(bytes: &[u8], buffer: &mut [u8])
    requires { (old_length ≤ length bytes.now) × (old_length ≤ length buffer.old) }
    ensures { buffer.new ≡ turned_record bytes.now ++ drop old_length buffer.old }
{
    for (i, place) in PLACES.iter().enumerate() {
        buffer[i] = bytes[*place];
    }
}

// A way to convert, as the rules have it: how long the records are that come in, and those that they become; what becomes of one; and
// whether it keeps the tape from being converted.
trait Direction {
    ghost way: { Way };

    ghost FROM: { ℕ };

    ghost INTO: { ℕ };

    const FROM: usize;

    const INTO: usize;

    // Writes what becomes of a record to the front of a buffer; the rest stays.
    fn write(bytes: &[u8], buffer: &mut [u8])
        requires { (length bytes.now ≡ way.size) × (INTO ≤ length buffer.old) }
        ensures { buffer.new ≡ way.becomes bytes.now ++ drop INTO buffer.old };

    fn is_barred(bytes: &[u8]) -> bool
        requires { length bytes.now ≡ way.size }
        ensures { result ≡ way.barred bytes.now };

    ghost takes: { way.size ≡ FROM };

    ghost some_taken: { 0 < FROM };

    ghost some_given: { 0 < INTO };

    ghost gives: { Into way INTO };
}

// From the first fittings' records to ours: bytes 20 to 23 are zero. No record is barred.
struct ToOurs;

impl Direction for ToOurs {
    ghost way = { to24 };

    ghost FROM = { old_length };

    ghost INTO = { our_length };

    const FROM: usize = OLD_LENGTH;

    const INTO: usize = OUR_LENGTH;

    fn write(bytes: &[u8], buffer: &mut [u8]) {
        turn(bytes, buffer);
        buffer[OLD_LENGTH..OUR_LENGTH].fill(0);
    }

    fn is_barred(_: &[u8]) -> bool {
        false
    }

    ghost takes = { refl };

    ghost some_taken = { Prim.search rules };

    ghost some_given = { Prim.search rules };

    ghost gives = { into_ours };
}

// From our records to the first fittings': one with a byte in 20 to 23 that is not zero is barred.
struct ToOld;

impl Direction for ToOld {
    ghost way = { to20 };

    ghost FROM = { our_length };

    ghost INTO = { old_length };

    const FROM: usize = OUR_LENGTH;

    const INTO: usize = OLD_LENGTH;

    fn write(bytes: &[u8], buffer: &mut [u8]) {
        turn(bytes, buffer);
    }

    fn is_barred(bytes: &[u8]) -> bool {
        bytes[OLD_LENGTH..].iter().any(|byte| *byte != 0)
    }

    ghost takes = { refl };

    ghost some_taken = { Prim.search rules };

    ghost some_given = { Prim.search rules };

    ghost gives = { into_old };
}

// Whether any of a tape's records is barred.
fn any_barred<D: Direction>(input: &[u8]) -> bool
    ensures { result ≡ any_of D.way.barred (records_of D.way.size input.now) }
{
    input
        .chunks_exact(D::FROM)
        .any(|record| D::is_barred(record))
}

// Writes what becomes of each of a tape's records.
fn write_all<D: Direction>(input: &[u8], output: &mut [u8])
    requires { length input.now / D.way.size ≤ length output.old / D.INTO }
    ensures { output.new ≡ converted D.way input.now ++ drop (D.INTO * (length input.now / D.way.size)) output.old }
{
    // what `chunks_exact_mut` lends is not known to a proof once it is given back: so the places are counted
    for (i, record) in input.chunks_exact(D::FROM).enumerate() {
        D::write(record, &mut output[D::INTO * i..]);
    }
}

// Converts a tape. All records are tested before the first is written.
fn convert<D: Direction>(input: &[u8], output: &mut [u8]) -> Result<usize, Refusal>
    ensures { Promised D.way input.now output.old result output.new }
{
    if input.len() % D::FROM != 0 {
        return Err(Refusal::NotWhole);
    }
    // numbers of records are compared: the bytes of a converted tape could be more than a usize counts
    let count = input.len() / D::FROM;
    if output.len() / D::INTO < count {
        return Err(Refusal::ShortBuffer);
    }
    if any_barred::<D>(input) {
        return Err(Refusal::LastBytesUsed);
    }
    write_all::<D>(input, output);
    Ok(D::INTO * count)
}

// From the first fittings' records to ours.
pub fn to_24(input: &[u8], output: &mut [u8]) -> Result<usize, Refusal>
    ensures { Promised to24 input.now output.old result output.new }
{
    convert::<ToOurs>(input, output)
}

// From our records to the first fittings'.
pub fn to_20(input: &[u8], output: &mut [u8]) -> Result<usize, Refusal>
    ensures { Promised to20 input.now output.old result output.new }
{
    convert::<ToOld>(input, output)
}
