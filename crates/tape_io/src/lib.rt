// The programs' reading and writing: files and standard input read, the words of the command line, what is said on standard error; a tape
// played from its bytes and its text written; and the tape program itself, whichever way its records are played.
#![tactic(auto)]

mod input;
mod messages;
mod playing;
mod program;
mod words;

pub use call_player::Calls;
pub use input::{Cut, fill, fill_from, open};
pub use messages::{fail, say};
pub use playing::{CALENDAR_BYTES, TAPE_BYTES, play};
pub use program::{advise, complain, print_of_tape, run, with_tape};
pub use tape_player::Loop;
pub use words::{WORD_BYTES, count_words, file_name, word};
