// The evaluation of a file (document 01, "Evaluation"): its four passes, a module each with its test and what it does to an order, run one
// after another; and the questions by which a file that it leaves is told, of an order by itself and of one and another, so that it is not
// stored again. In window is here: up to the last day in window, which the caller looks for once.
#![tactic(auto)]

mod changes;
mod drop_on_switch_day;
mod loss_notice;
mod order_tests;
mod passes;
mod permit_overtaken;
mod same_day_switches;

pub use changes::{changes_order, may_be_ousted, ousts};
pub use loss_notice::is_due;
pub use passes::evaluate;
