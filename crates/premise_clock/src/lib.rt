// The clock of a day mark (document 01, "Clock"): on a file, and whether it changes an order.
#![tactic(auto)]

mod changes;
mod on_file;
mod on_order;
mod waits;

pub use changes::clock_changes_order;
pub use on_file::wind;
