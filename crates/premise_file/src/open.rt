// Whether an order is open, and whether one of some orders is.
ghost use Rattle.std.specs.Prelude.{◌≡◌};
ghost use Rattle.lists.specs.Search.{any_of};
ghost use Rattle.premise.specs.Orders.{is_open};

use premise::Order;

// Whether an order is open.
pub fn is_open(o: &Order) -> bool
    ensures { result ≡ is_open o.now }
{
    (premise::IN_REVIEW <= o.status) & (o.status <= premise::CANCEL_PENDING)
}

// Whether one of a file's orders is open.
pub fn any_open(orders: &[Order]) -> bool
    ensures { result ≡ any_of is_open orders.now }
{
    orders.iter().any(is_open)
}
