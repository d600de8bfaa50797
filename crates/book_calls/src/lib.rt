// The book layer's face: `fresh`, a new book from a start day, `record_call`, a record on a book, and `waiting_orders`, how many orders of
// a book wait. They ask nothing of their caller: every book, record, calendar and buffer is answered.
#![tactic(auto)]

mod calls;

pub use calls::{fresh, record_call, waiting_orders};
