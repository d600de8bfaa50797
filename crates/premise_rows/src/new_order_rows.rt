// The answer to a new order, by rows 8 to 12, with 26 between 11 and 12.
ghost use Rattle.std.specs.Prelude.{◌≡◌, ◌&&◌};
ghost use Rattle.premise.specs.Orders.{held};
ghost use Rattle.premise.specs.Refusals.{limited, out_of_range};
ghost use Rattle.premise.specs.WellKept.{Tidy};
ghost use Rattle.premise_rows.specs.NewOrderRows.{order_answer};

use premise::{Answer, File, Refusal};
use records::{Record, order_kind};

// Row 9: how many days ahead of today, and back, an order may be requested for.
const MOST_AHEAD: u32 = 90;

const MOST_BACK: u32 = 270;

// Row 9: whether a new order's kind is limited and its day too far from today.
fn is_too_far(today: u16, kind: u8, requested: u16) -> bool
    ensures { result ≡ (limited kind && out_of_range today requested) }
{
    let now = today as u32;
    let day = requested as u32;
    ((kind == order_kind::MOVE_IN)
        | (kind == order_kind::MOVE_OUT)
        | (kind == order_kind::SELF_SELECTED_SWITCH))
        & ((now + MOST_AHEAD < day) | (day + MOST_BACK < now))
}

// The answer to a new order for a day: rows 8 to 11, 26 and 12, in their order.
#[tactic(auto, unfolding(crate::specs::NewOrderRows::order_answer))]
pub fn new_order_answer(today: u16, file: &File, r: Record, requested: u16) -> Answer
    requires { Tidy file.now }
    ensures { result ≡ order_answer today (held file.now) r requested }
{
    let kind = r.detail;
    let orders = file.held();
    if premise_file::find(orders, r.reference).is_some() {
        return Err(Refusal::ReferenceHeld);
    }
    if is_too_far(today, kind, requested) {
        return Err(Refusal::DayOutOfRange);
    }
    if (kind == order_kind::STANDARD_SWITCH) & (requested == days::NO_DAY) {
        return Err(Refusal::NoSwitchDate);
    }
    if crate::first_in::not_first_in(orders, kind, requested) {
        return Err(Refusal::NotFirstIn);
    }
    if premise_file::is_share_full(orders, r.retailer) {
        return Err(Refusal::RetailerShareFull);
    }
    if premise_file::is_full(orders) {
        return Err(Refusal::StackFull);
    }
    Ok(())
}
