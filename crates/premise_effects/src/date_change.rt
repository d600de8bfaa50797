// What a date change (kind 11) does to the order that it names, with its notices: document 02, change 1.
ghost use Rattle.std.specs.Prelude.{◌≡◌};
ghost use Rattle.premise.specs.Steps.{redated, on_date_change};
ghost use Rattle.premise_notices.specs.Outboxes.{RoomIn, DoneToOrder};

use premise::{File, Order};
use premise_notices::{NoticeCode, Outbox};
use records::Record;

// The order with its new date: In Review again, without a scheduled day, its wait begun today, nobody told of it, the counter kept.
fn with_date(calendar: &[u8], today: u16, r: Record, o: Order) -> Order
    ensures { result ≡ redated calendar.now today r o }
{
    let waited = premise_rows::wait_begun(calendar, today);
    let mut t = o;
    t.requested = r.day;
    t.scheduled = days::NO_DAY;
    t.status = premise::IN_REVIEW;
    t.waited = waited;
    t.told = 0;
    t.counter = r.retailer;
    t
}

// A date change on its order: the TDSP is told the new date, and then the premise's retailer, where that had been told of a move in.
pub fn change_date(
    calendar: &[u8],
    today: u16,
    file: &File,
    r: Record,
    o: Order,
    out: &mut Outbox,
) -> Order
    requires { RoomIn out.old (on_date_change calendar.now today file.now r o).notices }
    ensures { DoneToOrder (on_date_change calendar.now today file.now r o) result out.old out.new }
{
    let t = with_date(calendar, today, r, o);
    out.tell(NoticeCode::DateChange, file.premise, records::TDSP, t);
    if (o.kind == records::order_kind::MOVE_IN)
        & (o.told == 1)
        & (file.retailer != premise::NOBODY)
    {
        out.tell(NoticeCode::DateChange, file.premise, file.retailer, t);
    }
    t
}
