// Whether a file is well kept; it leaves at the first part that fails.
ghost use Rattle.std.specs.Prelude.{◌≡◌};
ghost use Rattle.premise.specs.WellKept.{distinct};
ghost use Rattle.premise_kept.specs.Test.{file_test};

use crate::counts::place_value;
use crate::order::order_kept;
use crate::unused::are_blank;
use premise::{File, Order};

// Whether references are distinct: each order is held against the later ones.
fn are_distinct(orders: &[Order]) -> bool
    ensures { result ≡ distinct orders.now }
{
    let mut left = orders;
    while let Some((first, later)) = left.split_first() {
        if later.iter().any(|o| o.reference == first.reference) {
            return false;
        }
        left = later;
    }
    true
}

// Whether a file is well kept, and if so how many of its orders are in each open status, as one number. One walk over its orders tests each
// by itself and counts it under its status. References that rise on the way are distinct; only where they do not is each held against the
// later ones. The places after the orders are unused.
pub fn file_kept(file: &File) -> Option<u64>
    ensures { result ≡ file_test file.now }
{
    if !((file.premise != 0)
        & (file.retailer <= records::LAST_RETAILER)
        & (file.since <= days::LAST_DAY)
        & ((1 <= file.window) & (file.window as usize <= days::MOST_WIDTH))
        & (file.agreement <= records::LAST_RETAILER)
        & (file.entered <= 1)
        & (file.count <= premise::MOST_ORDERS))
    {
        return None;
    }
    let (orders, unused) = file.orders.split_at(file.count);
    let mut waiting: u64 = 0;
    // no reference is 0, so that the first one rises
    let mut last: u32 = 0;
    let mut rising = true;
    for o in orders {
        if !order_kept(o) {
            return None;
        }
        waiting += place_value(o);
        rising = rising & (last < o.reference);
        last = o.reference;
    }
    if !rising && !are_distinct(orders) {
        return None;
    }
    are_blank(unused).then_some(waiting)
}
