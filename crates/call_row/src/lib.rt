// Record calls in a row: made by `book_calls::record_call` one after the other, each on the book that the one before returned. What came
// back of each is promised as a list of calls, of which demand 3 speaks.
#![tactic(auto)]

mod calls;

pub use calls::calls_in_row;
