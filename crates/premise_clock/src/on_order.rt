// What the clock does to one order, by its status before the mark. The notices go out by the outbox.
ghost use Rattle.premise.specs.Clock.{reviewed, permit_awaited, most_pending, cancel_awaited, ticked};
ghost use Rattle.premise_notices.specs.Outboxes.{RoomIn, DoneToOrder};
ghost use Rattle.premise_clock.specs.WaitEnds.{waited_on};
ghost use Rattle.std.specs.Prelude.{◌≡◌, false, ◌+◌, leb};

use crate::waits::{counts, grow, review_ends};
use premise::{BusinessDays, CalendarDays, MOST_WAITED, Order};
use premise_notices::Outbox;

// An order with its business days as they have grown. Where the wait ends it turns Cancel Pending, and the TDSP is asked to cancel it.
fn wait_on(ends: bool, premise: u64, waited: BusinessDays, o: Order, out: &mut Outbox) -> Order
    requires { RoomIn out.old (waited_on ends premise waited.0 o).notices }
    ensures { DoneToOrder (waited_on ends premise waited.0 o) result out.old out.new }
{
    let mut t = o;
    t.waited = waited;
    if ends {
        t.status = premise::CANCEL_PENDING;
        t.pending = CalendarDays(0);
        out.send_cancel(premise, records::TDSP, t);
    }
    t
}

// The clock on an order In Review.
pub fn review(business: bool, today: u16, premise: u64, o: Order, out: &mut Outbox) -> Order
    requires { RoomIn out.old (reviewed business today premise o).notices }
    ensures { DoneToOrder (reviewed business today premise o) result out.old out.new }
{
    let waited = grow(o.waited, business);
    let ends = review_ends(waited, o.requested, today);
    wait_on(ends, premise, waited, o, out)
}

// The clock on a Permit Pending order.
pub fn await_permit(business: bool, today: u16, premise: u64, o: Order, out: &mut Outbox) -> Order
    requires { RoomIn out.old (permit_awaited business today premise o).notices }
    ensures { DoneToOrder (permit_awaited business today premise o) result out.old out.new }
{
    let waited = grow(o.waited, counts(business, o.requested, today));
    let ends = waited.0 == MOST_WAITED;
    wait_on(ends, premise, waited, o, out)
}

// The last count of calendar days that is still waited in Cancel Pending.
const LAST_PENDING: u8 = 6;

// Whether the seventh calendar day in Cancel Pending has come.
fn is_over(pending: CalendarDays) -> bool
    ensures { result ≡ leb most_pending (pending.0 + 1) }
{
    LAST_PENDING <= pending.0
}

// One calendar day more.
fn one_more(pending: CalendarDays) -> CalendarDays
    requires { leb most_pending (pending.0 + 1) ≡ false }
    ensures { result.0 ≡ pending.0 + 1 }
{
    CalendarDays(pending.0 + 1)
}

// The clock on a Cancel Pending order.
fn await_cancel(premise: u64, o: Order, out: &mut Outbox) -> Order
    requires { RoomIn out.old (cancel_awaited premise o).notices }
    ensures { DoneToOrder (cancel_awaited premise o) result out.old out.new }
{
    if is_over(o.pending) {
        return out.cancel(premise, o.submitter, o);
    }
    let mut t = o;
    t.pending = one_more(o.pending);
    t
}

// The clock on one order, by its status before the mark.
pub fn tick(business: bool, today: u16, premise: u64, o: Order, out: &mut Outbox) -> Order
    requires { RoomIn out.old (ticked business today premise o).notices }
    ensures { DoneToOrder (ticked business today premise o) result out.old out.new }
{
    match o.status {
        premise::IN_REVIEW => review(business, today, premise, o, out),
        premise::PERMIT_PENDING => await_permit(business, today, premise, o, out),
        premise::CANCEL_PENDING => await_cancel(premise, o, out),
        _ => o,
    }
}
