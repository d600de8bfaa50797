// The premises that tapes name, in rising order: each time the smallest above the last one.
ghost use Rattle.std.specs.Prelude.{◌≡◌};
ghost use Rattle.tape_agreement_rules.specs.Agreement.{records_in};
ghost use Rattle.tape_agreement.specs.Walks.{nearest, next_named};

use crate::record::nearer;
use records::RECORD_LENGTH;

// The largest premise there is.
pub const LAST_PREMISE: u64 = u64::MAX;

// The smallest premise above the last one that a tape names below a limit; the limit where it names none.
pub fn next_below(tape: &[u8], last: u64, limit: u64) -> u64
    ensures { result ≡ nearest last limit (records_in tape.now) }
{
    let mut premise = limit;
    for record in tape.as_chunks::<RECORD_LENGTH>().0 {
        premise = nearer(record, last, premise);
    }
    premise
}

// The smallest premise above the last one that either tape names; the largest there is where neither names one.
pub fn next_premise(ours: &[u8], theirs: &[u8], last: u64) -> u64
    ensures { result ≡ next_named last (records_in ours.now) (records_in theirs.now) }
{
    next_below(theirs, last, next_below(ours, last, LAST_PREMISE))
}
