// The 24-byte layout of records and notices in code (document 01, "Records"): what the bytes of a record or a notice say, a notice written,
// and numbers in bytes. What the bytes mean stands in `records`.
#![tactic(auto)]

mod fields;
mod notice;
mod numbers;
mod reading;
mod well_formed;

pub use notice::write_notice;
pub use numbers::{eight, four, two};
pub use reading::{read_notice, read_record};
