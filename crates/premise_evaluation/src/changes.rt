// Whether a file has an order that the evaluation changes. Most have none. It is asked order against order.
ghost use Rattle.std.specs.Prelude.{◌≡◌, ◌||◌};
ghost use Rattle.days.specs.Window.{up_to};
ghost use Rattle.premise.specs.Evaluation.{is_due};
ghost use Rattle.premise_laws.specs.Changes.{changes_order, any_at};
ghost use Rattle.premise.specs.Orders.{held};
ghost use Rattle.premise.specs.WellKept.{Tidy};
ghost use Rattle.premise_evaluation.specs.Ousting.{may_be_ousted};
ghost use Rattle.premise_evaluation.specs.Ousting as ousting;

use crate::drop_on_switch_day::{is_near_drop, is_switch_on};
use crate::loss_notice::is_due;
use crate::order_tests::{is_contender, is_switch};
use crate::permit_overtaken::{awaits_permit, is_overtaking};
use crate::same_day_switches::is_preferred;
use premise::{File, Order};

// Whether another order can oust an order: no search through the others for one that none can.
pub fn may_be_ousted(last: u16, o: Order) -> bool
    ensures { result ≡ may_be_ousted last o }
{
    awaits_permit(o) || is_contender(last, o) || is_near_drop(last, o)
}

// Whether the order at a place i is ousted by another, at a place j. Few orders are for the same day: that test spares the next.
pub fn ousts(today: u16, last: u16, i: usize, o: Order, j: usize, other: Order) -> bool
    ensures { result ≡ ousting.ousts today last i o j other }
{
    if awaits_permit(o) {
        return is_overtaking(today, o.requested, other);
    }
    if other.scheduled != o.scheduled {
        return false;
    }
    if is_contender(last, o) {
        return is_switch(other) & is_preferred(i, o, j, other);
    }
    is_near_drop(last, o) & is_switch_on(o.scheduled, other)
}

// Whether one of some orders ousts the one at a place i of them.
fn is_ousted(today: u16, last: u16, orders: &[Order], i: usize, o: Order) -> bool
    ensures { result ≡ any_at (ousting.ousts today last i o) 0 orders.now }
{
    may_be_ousted(last, o)
        && orders
            .iter()
            .enumerate()
            .any(|(j, other)| ousts(today, last, i, o, j, *other))
}

// Whether the evaluation changes the order at a place i of some orders: whether it is due, or one of them ousts it.
pub fn changes_order(
    today: u16,
    last: u16,
    agreement: u64,
    orders: &[Order],
    i: usize,
    o: Order,
) -> bool
    ensures { result ≡ (is_due (up_to last) agreement o || any_at (ousting.ousts today last i o) 0 orders.now) }
{
    is_due(last, agreement, o) || is_ousted(today, last, orders, i, o)
}

// Whether a file has an order that the evaluation changes.
pub fn changes_file(today: u16, last: u16, file: &File) -> bool
    requires { Tidy file.now }
    ensures { result ≡ any_at (changes_order today last file.now.agreement (held file.now)) 0 (held file.now) }
{
    let orders = file.held();
    orders.iter().enumerate().any(|(i, o)| changes_order(
        today,
        last,
        file.agreement,
        orders,
        i,
        *o,
    ))
}
