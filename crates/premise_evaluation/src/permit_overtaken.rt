// Pass 3: a move in that awaits its permit, and that another move in overtook, is cancelled.
ghost use Rattle.std.specs.Prelude.{◌≡◌};
ghost use Rattle.premise.specs.Orders.{held};
ghost use Rattle.premise.specs.Evaluation.{overtakes, is_overtaken, permit_overtaken};
ghost use Rattle.premise_evaluation.specs.Ousting.{awaits_permit};

use crate::passes::Pass;
use premise::{File, Order};
use premise_notices::Outbox;

// Whether an order is a Scheduled move in whose day has come, requested for after another day. Few orders are: each test spares the next.
pub fn is_overtaking(today: u16, requested: u16, o: Order) -> bool
    ensures { result ≡ overtakes today requested o }
{
    o.kind == records::order_kind::MOVE_IN
        && o.status == premise::SCHEDULED
        && o.scheduled <= today
        && requested < o.requested
}

// Whether an order is a move in that awaits its permit.
pub fn awaits_permit(o: Order) -> bool
    ensures { result ≡ awaits_permit o }
{
    (o.kind == records::order_kind::MOVE_IN) & (o.status == premise::PERMIT_PENDING)
}

// Whether an order is a Permit Pending move in that one of some orders overtook.
#[tactic(auto, unfolding(premise::specs::Evaluation::is_overtaken))]
fn is_overtaken(today: u16, orders: &[Order], o: Order) -> bool
    ensures { result ≡ is_overtaken today orders.now o }
{
    awaits_permit(o)
        && orders
            .iter()
            .any(|other| is_overtaking(today, o.requested, *other))
}

// Pass 3, by today.
#[derive(Clone, Copy)]
pub struct PermitsOvertaken {
    pub today: u16,
}

impl Pass for PermitsOvertaken {
    ghost step = { λ by file i. permit_overtaken by.today file.premise (held file) };

    fn change(&self, file: &File, _i: usize, o: Order, out: &mut Outbox) -> Order {
        if is_overtaken(self.today, file.held(), o) {
            out.cancel(file.premise, o.submitter, o)
        } else {
            o
        }
    }
}
