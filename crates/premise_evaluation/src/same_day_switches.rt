// Pass 1: of the switches in window for one day one is kept. Each other gives way to it and is cancelled.
ghost use Rattle.std.specs.Prelude.{◌≡◌};
ghost use Rattle.lists.specs.Search.{place_of};
ghost use Rattle.days.specs.Window.{up_to};
ghost use Rattle.premise.specs.Orders.{held};
ghost use Rattle.premise.specs.Evaluation.{switch_of_day, gives_way, same_day_switch};
ghost use Rattle.premise_evaluation.specs.Contenders.{rival};
ghost use Rattle.premise_evaluation.specs.Ousting.{is_preferred};

use crate::order_tests::is_contender;
use crate::passes::Pass;
use premise::{File, Order};
use premise_notices::Outbox;

// Whether an order is a switch that contends for a day; with `only`, a Scheduled one.
fn is_rival(last: u16, day: u16, only: bool, o: Order) -> bool
    ensures { result ≡ rival (up_to last) day only o }
{
    is_contender(last, o) & (o.scheduled == day) & (!only | (o.status == premise::SCHEDULED))
}

// Of the switches of a day, whether another, at a place j, is kept rather than the one at a place i.
pub fn is_preferred(i: usize, o: Order, j: usize, other: Order) -> bool
    ensures { result ≡ is_preferred i o j other }
{
    if o.status == premise::SCHEDULED {
        (other.status == premise::SCHEDULED) & (j < i)
    } else {
        (other.status == premise::SCHEDULED) | ((other.status == premise::CANCEL_PENDING) & (j < i))
    }
}

// The place of the oldest such switch among some orders.
fn first_rival(orders: &[Order], last: u16, day: u16, only: bool) -> Option<usize>
    ensures { result ≡ place_of (rival (up_to last) day only) orders.now }
{
    orders.iter().position(|o| is_rival(last, day, only, *o))
}

// The place of the switch that is kept for a day: the oldest Scheduled one, or the oldest if none is Scheduled.
#[tactic(auto, unfolding(premise::specs::Evaluation::switch_of_day))]
fn switch_of_day(orders: &[Order], last: u16, day: u16) -> Option<usize>
    ensures { result ≡ switch_of_day (up_to last) orders.now day }
{
    first_rival(orders, last, day, true).or_else(|| first_rival(orders, last, day, false))
}

// Whether the order at a place gives way to the switch that is kept for its day.
#[tactic(auto, unfolding(premise::specs::Evaluation::gives_way))]
fn gives_way(last: u16, orders: &[Order], i: usize, o: Order) -> bool
    ensures { result ≡ gives_way (up_to last) orders.now i o }
{
    is_contender(last, o) && switch_of_day(orders, last, o.scheduled) != Some(i)
}

// Pass 1, by the last day in window.
#[derive(Clone, Copy)]
pub struct SameDaySwitches {
    pub last: u16,
}

impl Pass for SameDaySwitches {
    ghost step = { λ by file. same_day_switch (up_to by.last) file.premise (held file) };

    fn change(&self, file: &File, i: usize, o: Order, out: &mut Outbox) -> Order {
        if gives_way(self.last, file.held(), i, o) {
            out.cancel(file.premise, o.submitter, o)
        } else {
            o
        }
    }
}
