// The notices: their codes, and a notice on an order or on none.
ghost use Rattle.std.specs.Prelude.{◌≡◌};
ghost use Rattle.premise.specs.Passes.{day_in, notice, notice_of_no_order};
ghost use Rattle.premise_notices.specs.Codes.{code_number};

use premise::Order;
use records::Notice;

// The notice codes. A notice that is read may have any other in its byte, so a `Notice` holds the number.
#[derive(Debug, Clone, Copy, PartialEq, Eq)]
pub enum NoticeCode {
    Order = 1,
    MoveOut = 2,
    Scheduled = 3,
    Losing = 4,
    Cancel = 5,
    Permit = 6,
    Unexecutable = 7,
    Reject = 8,
    DateChange = 9,
    AgreementRequest = 10,
    AgreementResponse = 11,
    AgreementMoveIn = 12,
}

impl NoticeCode {
    // The number that stands in a notice for it.
    pub fn number(self) -> u8
        ensures { result ≡ code_number self }
    {
        self as u8
    }
}

// A notice on an order. Its day is the requested one where the order is new or its date is changed, and else the scheduled one.
pub fn notice_on(code: u8, premise: u64, addressee: u64, o: Order) -> Notice
    ensures { result ≡ notice code premise addressee o }
{
    let day = day_in(code, o);
    Notice {
        code,
        kind: o.kind,
        day,
        reference: o.reference,
        premise,
        addressee,
    }
}

fn day_in(code: u8, o: Order) -> u16
    ensures { result ≡ day_in code o }
{
    if (code <= NoticeCode::MoveOut as u8) | (code == NoticeCode::DateChange as u8) {
        o.requested
    } else {
        o.scheduled
    }
}

// A notice on a premise's agreement, which is on no order.
pub fn notice_of_no_order(code: u8, premise: u64, addressee: u64) -> Notice
    ensures { result ≡ notice_of_no_order code premise addressee }
{
    Notice {
        code,
        kind: 0,
        day: 0,
        reference: 0,
        premise,
        addressee,
    }
}
