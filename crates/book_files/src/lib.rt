// The files of a book: none; the totals of waiting orders where one is stored; whether the book is well kept.
#![tactic(auto)]

mod kept;
mod start;
mod waiting;

pub use kept::book_kept;
pub use start::empty;
pub use waiting::moved;
