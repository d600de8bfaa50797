// A new order before it joins its file: its requested day, the wait that begins, and how it starts.
ghost use Rattle.std.specs.Prelude.{◌≡◌};
ghost use Rattle.premise.specs.Orders.{business_days};
ghost use Rattle.premise.specs.Steps.{requested_day, wait_begun, new_order};

use premise::{BusinessDays, CalendarDays, IN_REVIEW, Order};
use records::Record;

// The requested day of a new order.
pub fn requested_day(calendar: &[u8], today: u16, r: Record) -> u16
    ensures { result ≡ requested_day calendar.now today r }
{
    if r.detail == records::order_kind::STANDARD_SWITCH {
        return days::switch_date(calendar, today);
    }
    r.day
}

// The wait that begins today, of a new order or a changed date: it counts today where that is a business day.
pub fn wait_begun(calendar: &[u8], today: u16) -> BusinessDays
    ensures { result ≡ business_days (wait_begun calendar.now today) }
{
    if days::is_business_day(calendar, today) {
        return BusinessDays(1);
    }
    BusinessDays(0)
}

// A new order, as it starts.
pub fn new_order(calendar: &[u8], today: u16, r: Record, requested: u16) -> Order
    requires { requested ≡ requested_day calendar.now today r }
    ensures { result ≡ new_order calendar.now today r }
{
    let waited = wait_begun(calendar, today);
    Order {
        reference: r.reference,
        kind: r.detail,
        submitter: r.retailer,
        requested: requested,
        scheduled: days::NO_DAY,
        status: IN_REVIEW,
        waited: waited,
        pending: CalendarDays(0),
        told: 0,
        counter: 0,
    }
}
