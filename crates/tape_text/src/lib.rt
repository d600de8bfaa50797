// The lines of the tape program as bytes (document 01, "The tape program"): numbers in base ten, lines of numbers, the lines of a record
// and of a notice, and those at the end, each written behind what a text has already.
#![tactic(auto)]

mod end_lines;
mod number_lines;
mod numbers;
mod record_lines;
mod text;

pub use number_lines::put_lettered;
pub use numbers::put_number;
pub use text::Text;
