// What the clock and several passes of the evaluation do to an order that is cancelled.
ghost use Rattle.std.specs.Prelude.{◌≡◌};
ghost use Rattle.premise.specs.Orders.{as_cancelled};

use premise::{CalendarDays, Order};

// An order as Cancelled.
pub fn as_cancelled(o: Order) -> Order
    ensures { result ≡ as_cancelled o }
{
    let mut t = o;
    t.status = premise::CANCELLED;
    t.pending = CalendarDays(0);
    t
}
