// What a record that names an order does to it, with its notices.
ghost use Rattle.premise.specs.Steps.{on_named};
ghost use Rattle.premise_notices.specs.Outboxes.{RoomIn, DoneToOrder};

use crate::date_change::change_date;
use crate::on_order::change_status;
use premise::{File, Order};
use premise_notices::Outbox;
use records::{Record, record_kind};

// A date change, or a record of kinds 4 to 9, on its order.
pub fn change_order(
    calendar: &[u8],
    today: u16,
    file: &File,
    r: Record,
    o: Order,
    out: &mut Outbox,
) -> Order
    requires { RoomIn out.old (on_named calendar.now today file.now r o).notices }
    ensures { DoneToOrder (on_named calendar.now today file.now r o) result out.old out.new }
{
    if r.kind == record_kind::DATE_CHANGE {
        change_date(calendar, today, file, r, o, out)
    } else {
        change_status(file, r, o, out)
    }
}
