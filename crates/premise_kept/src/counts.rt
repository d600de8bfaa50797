// How many orders are in each open status, as one number: 16 bits for each of the four counts, so that one sum adds up all of them and one
// comparison compares them.
ghost use Rattle.std.specs.Prelude.{◌≡◌, [], ◌∷◌};
ghost use Rattle.premise_kept.specs.Test.{packed, packed_counts};

use premise::Order;

// What one order counts in Permit Pending, Scheduled and Cancel Pending; In Review it counts 1.
const PERMIT_PLACE: u64 = 1 << 16;

const SCHEDULED_PLACE: u64 = 1 << 32;

const CANCEL_PLACE: u64 = 1 << 48;

// What an order counts: one in its status.
pub fn place_value(o: &Order) -> u64
    ensures { result ≡ packed_counts (o.now ∷ []) }
{
    match o.status {
        premise::IN_REVIEW => 1,
        premise::PERMIT_PENDING => PERMIT_PLACE,
        premise::SCHEDULED => SCHEDULED_PLACE,
        premise::CANCEL_PENDING => CANCEL_PLACE,
        _ => 0,
    }
}

// Four counts as one number.
pub fn packed(review: u16, permit: u16, scheduled: u16, cancel: u16) -> u64
    ensures { result ≡ packed review permit scheduled cancel }
{
    review as u64
        + PERMIT_PLACE * (permit as u64)
        + SCHEDULED_PLACE * (scheduled as u64)
        + CANCEL_PLACE * (cancel as u64)
}
