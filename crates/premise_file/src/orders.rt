// A file's orders: one found, one replaced.
ghost use Rattle.std.specs.Prelude.{◌≡◌, ◌<◌, eqb, set};
ghost use Rattle.lists.specs.Search.{place_of};
ghost use Rattle.premise.specs.Orders.{held, with_orders};
ghost use Rattle.premise.specs.WellKept.{Tidy};

use premise::{File, Order};

// The place of the order with a reference.
pub fn find(orders: &[Order], reference: u32) -> Option<usize>
    ensures { result ≡ place_of (λ o. eqb o.reference reference) orders.now }
{
    orders.iter().position(|o| o.reference == reference)
}

// A file with the order at a place replaced.
pub fn with_order(file: &mut File, i: usize, order: Order)
    requires { Tidy file.old × (i < file.old.count) }
    ensures { file.new ≡ with_orders file.old (set (held file.old) i order) }
{
    file.orders[i] = order;
}
