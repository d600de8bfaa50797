// The rows of the table of refusals that go by a file: those of a new order, those of a record that names one and that of an agreement; the
// number of an answer.
#![tactic(auto)]

mod agreement_rows;
mod first_in;
mod named_rows;
mod new_order_rows;
mod numbers;
mod requested;

pub use agreement_rows::deletes_another;
pub use named_rows::named_answer;
pub use new_order_rows::new_order_answer;
pub use numbers::number_of;
pub use requested::{new_order, requested_day, wait_begun};
