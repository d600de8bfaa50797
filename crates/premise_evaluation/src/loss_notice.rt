// Pass 4: the retailer that loses the premise by an order is told once, or, of a move out, the one that gets it by the owner's agreement.
ghost use Rattle.std.specs.Prelude.{◌≡◌};
ghost use Rattle.days.specs.Window.{up_to};
ghost use Rattle.premise.specs.Evaluation.{is_due, loss_notice};

use crate::passes::Pass;
use premise::{File, Order};
use premise_notices::{NoticeCode, Outbox};
use records::order_kind::MOVE_OUT;

// Whether an order is Scheduled and in window, and a retailer is still to be told of it. Of a move out there is one to be told only where
// there is an agreement. Most orders are not Scheduled: that test spares the others.
#[tactic(auto, unfolding(premise::specs::Evaluation::is_due))]
pub fn is_due(last: u16, agreement: u64, o: Order) -> bool
    ensures { result ≡ is_due (up_to last) agreement o }
{
    o.status == premise::SCHEDULED
        && ((o.kind != MOVE_OUT) | (agreement != premise::NOBODY))
            & (o.told == 0)
            & (o.scheduled <= last)
}

// Pass 4, by the last day in window.
#[derive(Clone, Copy)]
pub struct LossNotices {
    pub last: u16,
}

impl Pass for LossNotices {
    ghost step = { λ by file i. loss_notice (up_to by.last) file.premise file.retailer file.agreement };

    fn change(&self, file: &File, _i: usize, o: Order, out: &mut Outbox) -> Order {
        if !is_due(self.last, file.agreement, o) {
            return o;
        }
        let mut t = o;
        t.told = 1;
        if o.kind == MOVE_OUT {
            out.tell(NoticeCode::AgreementMoveIn, file.premise, file.agreement, t);
        } else if (file.retailer != premise::NOBODY) & (file.retailer != o.submitter) {
            out.tell(NoticeCode::Losing, file.premise, file.retailer, t);
        }
        t
    }
}
