// Two tapes held against each other in code: `compare`. Nothing is stored and nothing sorted: the tapes are walked once for the day
// marks, and then for each premise in rising order. The definitions stand in `tape_agreement_rules`.
#![tactic(auto)]

mod agreeing;
mod own;
mod places;
mod premises;
mod record;

pub use agreeing::compare;
