// Pass 2: a drop that is displaced by a switch of its day is cancelled.
ghost use Rattle.std.specs.Prelude.{◌≡◌};
ghost use Rattle.days.specs.Window.{up_to};
ghost use Rattle.premise.specs.Orders.{held};
ghost use Rattle.premise.specs.Evaluation.{switch_on, is_displaced, drop_on_switch_day};
ghost use Rattle.premise_evaluation.specs.Ousting.{is_near_drop};

use crate::order_tests::is_switch;
use crate::passes::Pass;
use premise::{File, Order};
use premise_notices::Outbox;

// Whether an order is a Scheduled switch for a day. Few orders are: each test spares the next.
pub fn is_switch_on(day: u16, o: Order) -> bool
    ensures { result ≡ switch_on day o }
{
    is_switch(o) && o.status == premise::SCHEDULED && o.scheduled == day
}

// Whether an order is a Scheduled drop in window.
pub fn is_near_drop(last: u16, o: Order) -> bool
    ensures { result ≡ is_near_drop (up_to last) o }
{
    (o.kind == records::order_kind::MASS_TRANSITION_DROP)
        & (o.status == premise::SCHEDULED)
        & (o.scheduled <= last)
}

// Whether an order is a drop that one of some orders, a switch, displaces.
#[tactic(auto, unfolding(premise::specs::Evaluation::is_displaced))]
fn is_displaced(last: u16, orders: &[Order], o: Order) -> bool
    ensures { result ≡ is_displaced (up_to last) orders.now o }
{
    is_near_drop(last, o) && orders.iter().any(|other| is_switch_on(o.scheduled, *other))
}

// Pass 2, by the last day in window.
#[derive(Clone, Copy)]
pub struct DropsOnSwitchDays {
    pub last: u16,
}

impl Pass for DropsOnSwitchDays {
    ghost step = { λ by file i. drop_on_switch_day (up_to by.last) file.premise file.retailer (held file) };

    fn change(&self, file: &File, _i: usize, o: Order, out: &mut Outbox) -> Order {
        if !is_displaced(self.last, file.held(), o) {
            return o;
        }
        if file.retailer != premise::NOBODY {
            return out.cancel(file.premise, file.retailer, o);
        }
        let t = premise_notices::as_cancelled(o);
        out.send_cancel(file.premise, records::TDSP, t);
        t
    }
}
