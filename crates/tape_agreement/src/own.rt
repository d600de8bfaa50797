// Two tapes at a premise: its own records and the day marks, walked with a cursor on each.
// (Two cursors and not two filtered chains: those take 1.6 to 1.8 times the second program's time where every record has a premise of its
// own, these 0.9; the aim is 1.5.)
ghost use Rattle.std.specs.Prelude.{◌≡◌, ◌≤◌, length};
ghost use Rattle.demands.specs.Tapes.{own_of};
ghost use Rattle.tape_agreement_rules.specs.Agreement.{records_in, same_records};
ghost use Rattle.tape_agreement.specs.Walks.{Reaches};

use crate::places;
use records::RECORD_LENGTH;

// The place of the next record, from a place on, that concerns a premise; where none does, one with fewer than 24 bytes behind it.
pub fn next_own(tape: &[u8], from: usize, premise: u64) -> usize
    requires { from ≤ length tape.now }
    ensures { Reaches premise tape.now from result }
{
    let mut at = from;
    while RECORD_LENGTH <= tape.len() - at {
        if places::concerns_at(tape, at, premise) {
            return at;
        }
        at += RECORD_LENGTH;
    }
    at
}

// Whether a premise has the same on both tapes.
pub fn same_own(ours: &[u8], theirs: &[u8], premise: u64) -> bool
    ensures { result ≡ same_records (own_of premise (records_in ours.now)) (own_of premise (records_in theirs.now)) }
{
    let mut here: usize = 0;
    let mut there: usize = 0;
    loop {
        here = next_own(ours, here, premise);
        there = next_own(theirs, there, premise);
        if ours.len() - here < RECORD_LENGTH {
            return theirs.len() - there < RECORD_LENGTH;
        }
        if theirs.len() - there < RECORD_LENGTH {
            return false;
        }
        if !places::same_record(ours, here, theirs, there) {
            return false;
        }
        here += RECORD_LENGTH;
        there += RECORD_LENGTH;
    }
}
