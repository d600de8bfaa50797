// The directory of ESI IDs in code: `look_up` for one text; `is_sound`, and `find` for many texts in a directory that was tested once. The
// definitions stand in `esi_rules`.
#![tactic(auto)]

mod halves;
mod keys;
mod search;
mod soundness;
mod texts;

pub use search::{find, given_back, look_up, number_of};
pub use soundness::is_sound;
