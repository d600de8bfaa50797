// The premise layer's face: a record of kinds 3 to 9, 11 or 12 on a file, the day mark on a file, and whether a day mark changes a file.
// That a premise is created or retired is the book's; proofs/CreateRetire.antt has what the one-premise rules say of it.
#![tactic(auto)]

mod agreement;
mod day_mark;
mod named;
mod new_order;
mod step;

pub use day_mark::{mark, mark_changes_file};
pub use step::on_file;
