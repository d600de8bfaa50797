// Whether a new order is not first in, by table 11.1 and the rule on standard switches.
ghost use Rattle.std.specs.Prelude.{◌≡◌};
ghost use Rattle.premise.specs.FirstIn.{refuses, stands_in_way, not_first_in};

use premise::Order;
use records::order_kind;

// Table 11.1, of one premise: a row for each kind of a Scheduled order, a column for each kind of a new one; 1 refuses.
const TABLE: [[u8; 4]; 5] = [
    [1, 0, 0, 1],
    [0, 1, 0, 1],
    [0, 0, 0, 1],
    [0, 0, 0, 1],
    [0, 0, 0, 0],
];

// Whether the table refuses a new order of a kind where one of a kind is Scheduled for its day. A new drop has no column.
fn is_refused(held: u8, new: u8) -> bool
    ensures { result ≡ refuses held new }
{
    if !((order_kind::MOVE_IN <= held)
        & (held <= order_kind::MASS_TRANSITION_DROP)
        & (order_kind::MOVE_IN <= new)
        & (new <= order_kind::SELF_SELECTED_SWITCH))
    {
        return false;
    }
    let i = (held - order_kind::MOVE_IN) as usize;
    let j = (new - order_kind::MOVE_IN) as usize;
    TABLE[i][j] == 1
}

// Whether a held order stands in the way of a new one: it is Scheduled for its day and the table refuses the new one, or both are standard
// switches and it is at or after the new one.
fn stands_in_way(o: Order, new: u8, requested: u16) -> bool
    ensures { result ≡ stands_in_way new requested o }
{
    let kind = o.kind;
    let scheduled = o.scheduled;
    if o.status != premise::SCHEDULED {
        return false;
    }
    ((scheduled == requested) & is_refused(kind, new))
        | ((new == order_kind::STANDARD_SWITCH)
            & (kind == order_kind::STANDARD_SWITCH)
            & (requested <= scheduled))
}

// Whether a new order is not first in: the search is left at the first order that stands in the way. (The loop with its labelled exit is
// document 01's form.)
pub fn not_first_in(orders: &[Order], new: u8, requested: u16) -> bool
    ensures { result ≡ not_first_in new requested orders.now }
{
    let mut i: usize = 0;
    'orders: loop {
        if orders.len() <= i {
            break 'orders false;
        }
        if stands_in_way(orders[i], new, requested) {
            break 'orders true;
        }
        i += 1;
    }
}
