// Comparing two tapes: first the day marks, then premise after premise. Every premise up to the last one asked agrees.
ghost use Rattle.tape_agreement_rules.specs.Agreement.{Compared};

use crate::{own, premises};
use tape_agreement_rules::Agreement;

// No well-formed record but a day mark has premise 0, so that what concerns it are the marks by themselves.
const NO_PREMISE: u64 = 0;

// Whether two tapes agree premise by premise; if not, at which premise first, by number.
pub fn compare(ours: &[u8], theirs: &[u8]) -> Agreement
    ensures { Compared ours.now theirs.now result }
{
    if !own::same_own(ours, theirs, NO_PREMISE) {
        return Agreement::MarksDiffer;
    }
    let mut last: u64 = 0;
    while last < premises::LAST_PREMISE {
        last = premises::next_premise(ours, theirs, last);
        if !own::same_own(ours, theirs, last) {
            return Agreement::Differ(last);
        }
    }
    Agreement::Same
}
