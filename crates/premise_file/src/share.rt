// Whether a retailer has its share of a premise's stack: document 02, change 12.
ghost use Rattle.std.specs.Prelude.{◌≡◌, leb};
ghost use Rattle.premise.specs.Orders.{most_of_one, open_of};

use crate::open::is_open;
use premise::Order;

// Whether a retailer has four or more open orders among a file's.
#[tactic(auto, using(lists::proofs::Chains::counts))]
pub fn is_share_full(orders: &[Order], retailer: u64) -> bool
    ensures { result ≡ leb most_of_one (open_of retailer orders.now) }
{
    let many = orders
        .iter()
        .filter(|o| is_open(o) & (o.submitter == retailer))
        .count();
    premise::MOST_OF_ONE <= many
}
