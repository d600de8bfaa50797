// Whether the clock changes an order.
ghost use Rattle.std.specs.Prelude.{◌≡◌};
ghost use Rattle.premise_laws.specs.Changes.{clock_changes};

use crate::waits::{counts, review_ends};
use premise::{MOST_WAITED, Order};

// Asked before the clock: most orders it leaves as they are, and the caller then neither copies nor stores one.
pub fn clock_changes_order(business: bool, today: u16, o: Order) -> bool
    ensures { result ≡ clock_changes business today o }
{
    match o.status {
        premise::IN_REVIEW => business || review_ends(o.waited, o.requested, today),
        premise::PERMIT_PENDING => o.waited.0 == MOST_WAITED
            || counts(business, o.requested, today),
        _ => o.status == premise::CANCEL_PENDING,
    }
}
