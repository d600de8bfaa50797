// What the programs share that make calls on books handed in as bytes, damaged ones too, and print what comes back: a book from its bytes,
// the other parts of a call from standard input, the pattern that lent buffers are filled with, and the lines. The layout of the bytes
// and of the lines stands at the top of the second program's callcheck.rs (reference/stacking/src/bin).
#![tactic(auto)]

mod book_bytes;
mod fault;
mod input;
mod lines;
mod playing;

pub use book_bytes::BOOK_BYTES;
pub use fault::Fault;
pub use input::{take_book, take_part, take_room};
pub use lines::{Lines, TEXT_BYTES};
pub use playing::play_all;

// What lent buffers are filled with, so that a byte that was written shows.
pub const PATTERN: u8 = 165;
