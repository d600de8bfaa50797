// Whether an order is well kept. In a well-kept book every order passes it: so its tests are joined without a branch.
ghost use Rattle.std.specs.Prelude.{◌≡◌};
ghost use Rattle.premise.specs.WellKept.{day_fits, pending_fits, order_kept};

use premise::Order;
use records::order_kind;

// Whether the scheduled day fits the status: a day unless the status takes none, and none unless it takes a day.
fn day_fits(o: &Order) -> bool
    ensures { result ≡ day_fits o.now }
{
    let undated = (o.status == premise::IN_REVIEW) | (o.status == premise::PERMIT_PENDING);
    let dated = (o.status == premise::SCHEDULED) | (o.status == premise::COMPLETE);
    ((o.scheduled <= days::LAST_DAY) & !undated) | ((o.scheduled == days::NO_DAY) & !dated)
}

// Whether the days in Cancel Pending fit the status.
fn pending_fits(o: &Order) -> bool
    ensures { result ≡ pending_fits o.now }
{
    if o.status == premise::CANCEL_PENDING {
        o.pending.0 < premise::MOST_PENDING
    } else {
        o.pending.0 == 0
    }
}

// Whether every field of an order is in range.
pub fn order_kept(o: &Order) -> bool
    ensures { result ≡ order_kept o.now }
{
    (o.reference != 0)
        & ((order_kind::MOVE_IN <= o.kind) & (o.kind <= order_kind::MASS_TRANSITION_DROP))
        & ((1 <= o.submitter) & (o.submitter <= records::LAST_RETAILER))
        & (o.requested <= days::LAST_DAY)
        & ((premise::IN_REVIEW <= o.status) & (o.status <= premise::UNEXECUTABLE))
        & day_fits(o)
        & ((o.status != premise::PERMIT_PENDING) | (o.kind == order_kind::MOVE_IN))
        & (o.waited.0 <= premise::MOST_WAITED)
        & pending_fits(o)
        & (o.told <= 1)
        & (o.counter <= records::LAST_COUNTER)
}
