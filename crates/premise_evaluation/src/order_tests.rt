// What several passes ask of an order.
ghost use Rattle.std.specs.Prelude.{◌≡◌};
ghost use Rattle.days.specs.Window.{up_to};
ghost use Rattle.premise.specs.Orders.{is_switch};
ghost use Rattle.premise.specs.Evaluation.{is_scheduled_or_cancel_pending, contends};

use premise::Order;

// Whether an order is a switch, standard or self-selected.
pub fn is_switch(o: Order) -> bool
    ensures { result ≡ is_switch o }
{
    (o.kind == records::order_kind::STANDARD_SWITCH)
        | (o.kind == records::order_kind::SELF_SELECTED_SWITCH)
}

// Whether an order is Scheduled or Cancel Pending.
pub fn is_scheduled_or_cancel_pending(o: Order) -> bool
    ensures { result ≡ is_scheduled_or_cancel_pending o }
{
    (o.status == premise::SCHEDULED) | (o.status == premise::CANCEL_PENDING)
}

// Whether an order is one of the switches in window of which one a day is kept.
#[tactic(auto, unfolding(premise::specs::Evaluation::contends))]
pub fn is_contender(last: u16, o: Order) -> bool
    ensures { result ≡ contends (up_to last) o }
{
    is_switch(o) & is_scheduled_or_cancel_pending(o) & (o.scheduled <= last)
}
