// What a record of kinds 4 to 9 does to the order that it names, with its notices.
ghost use Rattle.std.specs.Prelude.{◌≡◌, cond, eqb};
ghost use Rattle.records.specs.Records.{move_out};
ghost use Rattle.premise.specs.Orders.{with_status, with_pending};
ghost use Rattle.premise.specs.Steps.{on_order};
ghost use Rattle.premise_notices.specs.Codes.{code_number};
ghost use Rattle.premise_notices.specs.Outboxes.{RoomIn, DoneToOrder};
ghost use Rattle.premise_effects.specs.ByKind.{LeftBy, as_read, replied_status, code_of, addressee_of};

use premise::{
    BusinessDays, CANCEL_PENDING, CANCELLED, COMPLETE, CalendarDays, File, IN_REVIEW, Order,
    PERMIT_PENDING, SCHEDULED, UNEXECUTABLE,
};
use premise_notices::{NoticeCode, Outbox};
use records::{Record, record_kind};

// An order in another status, with no days of Cancel Pending: how kinds 4, 6, 8 and 9 leave it.
fn in_status(o: Order, status: u8) -> Order
    ensures { result ≡ with_pending 0 (with_status status o) }
{
    let mut t = o;
    t.status = status;
    t.pending = CalendarDays(0);
    t
}

// Kind 7: a Scheduled order is Complete on the day of the read; one that waits for its permit is In Review again.
fn read(r: Record, o: Order) -> Order
    ensures { result ≡ as_read r o }
{
    let mut t = o;
    if o.status == SCHEDULED {
        t.status = COMPLETE;
        t.scheduled = r.day;
        return t;
    }
    t.status = IN_REVIEW;
    t
}

// The status of an order after the reply to its cancel: where that is rejected, Scheduled if the order has a day.
fn replied_status(detail: u8, scheduled: u16) -> u8
    ensures { result ≡ replied_status detail scheduled }
{
    if detail == records::REPLY_ACCEPT {
        CANCELLED
    } else if scheduled <= days::LAST_DAY {
        SCHEDULED
    } else {
        IN_REVIEW
    }
}

// The order as a record leaves it. Kind 4 gives it its day, and kind 5 starts its wait anew.
fn left(r: Record, o: Order) -> Order
    ensures { LeftBy r o result }
{
    let kind = r.kind;
    match kind {
        record_kind::SCHEDULED => {
            let mut t = in_status(o, SCHEDULED);
            t.scheduled = r.day;
            t
        }
        record_kind::PERMIT => {
            let mut t = o;
            t.status = PERMIT_PENDING;
            t.waited = BusinessDays(0);
            t
        }
        record_kind::UNEXECUTABLE => in_status(o, UNEXECUTABLE),
        record_kind::READ => read(r, o),
        record_kind::CANCEL => in_status(o, CANCEL_PENDING),
        _ => in_status(o, replied_status(r.detail, o.scheduled)),
    }
}

// The code of a record's notice. A read has none.
fn code_of(kind: u8, detail: u8) -> NoticeCode
    ensures { code_number result ≡ code_of kind detail }
{
    match kind {
        record_kind::SCHEDULED => NoticeCode::Scheduled,
        record_kind::PERMIT => NoticeCode::Permit,
        record_kind::UNEXECUTABLE => NoticeCode::Unexecutable,
        record_kind::CANCEL => NoticeCode::Cancel,
        _ if detail == records::REPLY_ACCEPT => NoticeCode::Cancel,
        _ => NoticeCode::Reject,
    }
}

// Whom a record's notice goes to: the TDSP for a cancel, else the submitting retailer.
fn addressee_of(kind: u8, retailer: u64) -> u64
    ensures { result ≡ addressee_of kind retailer }
{
    if kind == record_kind::CANCEL {
        records::TDSP
    } else {
        retailer
    }
}

// The retailer that has been told of a told order: that of the owner's agreement of a move out, else the premise's own.
fn told_retailer(kind: u8, retailer: u64, agreement: u64) -> u64
    ensures { result ≡ cond (eqb kind move_out) agreement retailer }
{
    if kind == records::order_kind::MOVE_OUT {
        agreement
    } else {
        retailer
    }
}

// What a record of kinds 4 to 9 does to the order that it names: the order as the record leaves it, and its notice. Of an unexecutable
// order that has been told of, the retailer that heard of it hears too.
pub fn change_status(file: &File, r: Record, o: Order, out: &mut Outbox) -> Order
    requires { RoomIn out.old (on_order file.now r o).notices }
    ensures { DoneToOrder (on_order file.now r o) result out.old out.new }
{
    let kind = r.kind;
    let t = left(r, o);
    if kind == record_kind::READ {
        return t;
    }
    let code = code_of(kind, r.detail);
    let addressee = addressee_of(kind, o.submitter);
    let told = told_retailer(o.kind, file.retailer, file.agreement);
    out.tell(code, file.premise, addressee, t);
    if (kind == record_kind::UNEXECUTABLE) & (o.told == 1) & (told != premise::NOBODY) {
        out.tell(code, file.premise, told, t);
    }
    t
}
