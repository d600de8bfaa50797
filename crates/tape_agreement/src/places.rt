// The record from a place of a tape on: two fields are looked at before it is read whole.
ghost use Rattle.std.specs.Prelude.{◌≡◌, ◌+◌, ◌≤◌, length};
ghost use Rattle.records.specs.Layout.{record_length};
ghost use Rattle.records.specs.Records.{reading};
ghost use Rattle.demands.specs.Demand3.{concerns};
ghost use Rattle.tape_agreement_rules.specs.Agreement.{same_bytes};
ghost use Rattle.tape_agreement.specs.Walks.{record_at};

use crate::record::is_formed;
use record_bytes::eight;
use records::{RECORD_LENGTH, field_at, record_kind};

// Whether it concerns a premise.
pub fn concerns_at(tape: &[u8], at: usize, premise: u64) -> bool
    requires { at + record_length ≤ length tape.now }
    ensures { result ≡ concerns premise (reading (record_at tape.now at)) }
{
    if tape[at] == record_kind::DAY_MARK {
        return is_formed(&tape[at..at + RECORD_LENGTH]);
    }
    if eight(tape, at + field_at::PREMISE) == premise {
        return is_formed(&tape[at..at + RECORD_LENGTH]);
    }
    false
}

// Whether two records have the same 24 bytes, by three numbers.
pub fn same_record(ours: &[u8], here: usize, theirs: &[u8], there: usize) -> bool
    requires { (here + record_length ≤ length ours.now) × (there + record_length ≤ length theirs.now) }
    ensures { result ≡ same_bytes (record_at ours.now here) (record_at theirs.now there) }
{
    if eight(ours, here) != eight(theirs, there) {
        return false;
    }
    if eight(ours, here + 8) != eight(theirs, there + 8) {
        return false;
    }
    eight(ours, here + 16) == eight(theirs, there + 16)
}
