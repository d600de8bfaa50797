// The one loop that plays records on a book that stays in its place: what is to be done with a record, and the records of a stretch of
// tape, one after another. It asks for a well-kept book; the public calls stand in `book_calls`.
#![tactic(auto)]

mod dispatch;
mod player;

pub use player::{play, record_end};
