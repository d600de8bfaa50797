// Many records in one call: `record_calls` plays a stretch of tape on a book and gives what the single calls give. It asks nothing of its
// caller: every calendar, book, stretch and buffer is answered. What it promises stands in `stretch_rules`. Document 02, change 5.
#![tactic(auto)]

mod answers;
mod calls;

pub use answers::number_of;
pub use calls::record_calls;
