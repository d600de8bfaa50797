// The answer to a record that names an order (kinds 4 to 9 and 11) by rows 13, 14, 16 and 17, beside that order.
ghost use Rattle.std.specs.Prelude.{◌≡◌, ◌<◌, get_or};
ghost use Rattle.days.specs.Window.{up_to};
ghost use Rattle.premise.specs.Orders.{blank, held};
ghost use Rattle.premise.specs.Steps.{taken};
ghost use Rattle.premise.specs.WellKept.{Tidy};
ghost use Rattle.premise_rows.specs.NamedRows.{named_answer};

use premise::{Answer, CANCEL_PENDING, File, IN_REVIEW, Order, PERMIT_PENDING, Refusal, SCHEDULED};
use records::{Record, order_kind, record_kind};

// Row 14: whether a record is taken by the order that it names.
fn is_taken(r: Record, o: Order) -> bool
    ensures { result ≡ taken r o }
{
    let kind = r.kind;
    let status = o.status;
    match kind {
        record_kind::SCHEDULED => (status == IN_REVIEW)
            | (status == PERMIT_PENDING)
            | (status == CANCEL_PENDING),
        record_kind::PERMIT => (o.kind == order_kind::MOVE_IN) & (status == IN_REVIEW),
        record_kind::UNEXECUTABLE => premise_file::is_open(&o),
        record_kind::READ => (status == SCHEDULED) | (status == PERMIT_PENDING),
        record_kind::CANCEL => (status == IN_REVIEW)
            | (status == PERMIT_PENDING)
            | (status == SCHEDULED),
        record_kind::REPLY => status == CANCEL_PENDING,
        record_kind::DATE_CHANGE => ((o.kind == order_kind::MOVE_IN)
            | (o.kind == order_kind::MOVE_OUT))
            & ((status == IN_REVIEW) | (status == SCHEDULED)),
        _ => false,
    }
}

// The answer to a record that names the order at a place. Row 13, another retailer's cancel; row 14; of a date change row 16, a counter
// not above the order's, and row 17, an order that is Scheduled up to the last day in window; in their order.
pub fn named_answer(last: u16, file: &File, r: Record, i: usize) -> Answer
    requires { Tidy file.now × (i < file.now.count) }
    ensures { result ≡ named_answer (up_to last) r (get_or (held file.now) i blank) }
{
    let o = file.orders[i];
    if (r.kind == record_kind::CANCEL) & (r.retailer != o.submitter) {
        return Err(Refusal::NoSuchOrder);
    }
    if !is_taken(r, o) {
        return Err(Refusal::StatusNotTaken);
    }
    if (r.kind == record_kind::DATE_CHANGE) & (r.retailer <= o.counter) {
        return Err(Refusal::CounterNotAbove);
    }
    if (r.kind == record_kind::DATE_CHANGE) & (o.status == SCHEDULED) & (o.scheduled <= last) {
        return Err(Refusal::OrderInWindow);
    }
    Ok(())
}
