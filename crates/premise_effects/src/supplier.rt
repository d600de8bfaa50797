// Who supplies the premise after a record.
ghost use Rattle.std.specs.Prelude.{◌≡◌};
ghost use Rattle.premise.specs.Steps.{supplied};

use premise::{File, Order};
use records::{Record, order_kind};

// What a record does to who supplies the premise: a read of a Scheduled order, on a day not before the one since which the retailer holds,
// hands the premise to the order's retailer, and for a move out to that of the owner's agreement, or nobody. The mark says whether that
// was a move in; a move out on the day of one is held off.
#[tactic(auto, unfolding(premise::specs::Steps::supplied))]
pub fn supply(file: &mut File, r: Record, o: Order)
    ensures { file.new ≡ supplied file.old r o }
{
    if (r.kind == records::record_kind::READ)
        & (o.status == premise::SCHEDULED)
        & (file.since <= r.day)
        & !((o.kind == order_kind::MOVE_OUT) & (r.day == file.since) & (file.entered == 1))
    {
        file.retailer = if o.kind == order_kind::MOVE_OUT {
            file.agreement
        } else {
            o.submitter
        };
        file.since = r.day;
        file.entered = (o.kind == order_kind::MOVE_IN) as u8;
    }
}
