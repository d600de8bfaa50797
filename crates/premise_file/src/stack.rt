// Whether a file's stack of eight is full, and a new order on it.
ghost use Rattle.std.specs.Prelude.{◌≡◌, eqb, [], ◌∷◌, ◌++◌, false, ◌<◌};
ghost use Rattle.lists.specs.Search.{count_of, place_of};
ghost use Rattle.premise.specs.Orders.{most_orders, is_open, held, is_closed, with_orders};
ghost use Rattle.premise.specs.WellKept.{Tidy};
ghost use Rattle.lists.specs.Shift.{removed};
ghost use Rattle.premise.specs.Steps.{make_room};

use crate::open::is_open;
use premise::{File, MOST_ORDERS, Order};

// Whether eight open orders are held.
#[tactic(auto, using(lists::proofs::Chains::counts))]
pub fn is_full(orders: &[Order]) -> bool
    ensures { result ≡ eqb (count_of is_open orders.now) most_orders }
{
    orders.iter().filter(|o| is_open(o)).count() == MOST_ORDERS
}

// The place of the oldest closed order.
fn first_closed(orders: &[Order]) -> Option<usize>
    ensures { result ≡ place_of is_closed orders.now }
{
    orders.iter().position(|o| !is_open(o))
}

// One order more, in the first unused place.
fn append(file: &mut File, order: Order)
    requires { Tidy file.old × (file.old.count < most_orders) }
    ensures { file.new ≡ with_orders file.old (held file.old ++ (order ∷ [])) }
{
    file.orders[file.count] = order;
    file.count += 1;
}

// A new order joins the file; where eight are held, the oldest closed one goes. Only the places from it on are stored to.
pub fn admit(file: &mut File, order: Order)
    requires { Tidy file.old × (eqb (count_of is_open (held file.old)) most_orders ≡ false) }
    ensures { file.new ≡ with_orders file.old (make_room (held file.old) ++ (order ∷ [])) }
{
    if file.count < MOST_ORDERS {
        append(file, order);
    } else if let Some(at) = first_closed(file.held()) {
        replace_oldest(file, at, order);
    }
}

// The last of a file's places.
const LAST_PLACE: usize = MOST_ORDERS - 1;

// The orders after a place moved one place down, and a new one in the last.
fn replace_oldest(file: &mut File, at: usize, order: Order)
    requires { Tidy file.old × (file.old.count ≡ most_orders) × (at < most_orders) }
    ensures { file.new ≡ with_orders file.old (removed at (held file.old) ++ (order ∷ [])) }
{
    file.orders.copy_within(at + 1.., at);
    file.orders[LAST_PLACE] = order;
}
