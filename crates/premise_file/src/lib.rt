// A premise's file: one without orders, its orders, which of them are open and how many of one retailer, and a new order on its stack of
// eight.
#![tactic(auto)]

mod empty;
mod open;
mod orders;
mod share;
mod stack;

pub use empty::{blank_file, new_file};
pub use open::{any_open, is_open};
pub use orders::{find, with_order};
pub use share::is_share_full;
pub use stack::{admit, is_full};
