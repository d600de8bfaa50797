// The tape program's work: a tape is played in stretches, each into a buffer for the text. What a stretch is stands in `tape_output`.
#![tactic(auto)]

mod ending;
mod player;
mod stretch_text;

pub use ending::close;
pub use player::{Loop, Player, play_on};
pub use stretch_text::put_stretch;
