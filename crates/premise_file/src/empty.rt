// A file without orders, unused or new.
ghost use Rattle.std.specs.Prelude.{◌≡◌};
ghost use Rattle.premise.specs.Orders.{blank_file};
ghost use Rattle.premise.specs.Steps.{width_for, new_file};

use premise::{BusinessDays, CalendarDays, File, Order};
use records::Record;

// An unused place.
const BLANK: Order = Order {
    reference: 0,
    kind: 0,
    submitter: 0,
    requested: 0,
    scheduled: 0,
    status: 0,
    waited: BusinessDays(0),
    pending: CalendarDays(0),
    told: 0,
    counter: 0,
};

// An unused file.
pub fn blank_file() -> File
    ensures { result ≡ blank_file }
{
    File {
        premise: 0,
        retailer: 0,
        since: 0,
        window: 0,
        agreement: 0,
        entered: 0,
        count: 0,
        orders: [BLANK; premise::MOST_ORDERS],
    }
}

// The window that a create's detail stands for.
fn width_for(detail: u8) -> u8
    ensures { result ≡ width_for detail }
{
    if detail == 0 {
        days::WINDOW_WIDTH
    } else {
        detail
    }
}

// The file that a create makes: without orders, agreement and mark.
pub fn new_file(r: Record) -> File
    ensures { result ≡ new_file r }
{
    File {
        premise: r.premise,
        retailer: r.retailer,
        since: r.day,
        window: width_for(r.detail),
        ..blank_file()
    }
}
