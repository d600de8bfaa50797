// What the tape program prints, as definitions, with the types of a tape that is being played. What the text is stands in
// specs/Output.antt; that the stretches of a tape, one after another, are the whole output stands in specs/Stretches.antt; how long each
// line can be in specs/Lengths.antt. The code that plays a stretch stands in `tape_player`.
#![tactic(auto)]

ghost use Rattle.std.specs.Prelude.{◌≡◌};
ghost use Rattle.tape_output.specs.Output.{starting};

use book::Book;
use tape_reader::Reader;

// A tape that is being played: its reader, and the book.
#[derive(Clone, Copy)]
pub struct Playing {
    pub reader: Reader,
    pub book: Book,
}

// A tape after a stretch: how many bytes of text there are, and whether they are the last. No variants: the text is written in either case,
// and the specs read all three.
#[derive(Clone, Copy)]
pub struct Stretch {
    pub playing: Playing,
    pub stop: usize,
    pub done: bool,
}

// A tape before its first record: a fresh book at day 0, which is an empty one.
pub fn start() -> Playing
    ensures { result ≡ starting }
{
    Playing {
        reader: Reader::start(),
        book: book_files::empty(0),
    }
}
