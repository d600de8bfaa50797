// How a stretch of a tape closes, with the text of the end.
ghost use Rattle.std.specs.Prelude.{◌≡◌, ◌+◌, ◌-◌, ◌≤◌, length};
ghost use Rattle.tape_text.specs.Numbers.{Puts};
ghost use Rattle.tape_output.specs.Output.{tape_most, ending};
ghost use Rattle.tape_output.specs.Stretches.{ending_most, closing, left, Ready, Plays};

use tape_output::Playing;
use tape_text::Text;

// The most bytes of text that the end can take: 64 lines of files, and the last line.
pub const MOST_ENDING: usize = 2_764;

// The end: a line for each file, and the last line.
fn put_ending(p: &Playing, text: &mut Text)
    requires { Ready p.now × (text.old.at + ending_most ≤ length text.old.out.now) }
    ensures same_buffer { text.new.out.ghost_name ≡ text.old.out.ghost_name }
    ensures puts { Puts text.old.at text.old.out.now text.new.out.now text.new.at (ending p.now) }
{
    for file in &p.book.files[..p.book.count] {
        text.file(file.premise, file.retailer, file.since);
    }
    text.total(p.reader.accepted, p.reader.refused);
}

// How a stretch closes, behind the text of its records: where no record of the tape is left and the end finds room, the end is put. Whether
// it is.
pub fn close(p: &Playing, tape: &[u8], text: &mut Text) -> bool
    requires { Ready p.now × (length tape.now ≤ tape_most) × (text.old.at ≤ length text.old.out.now) }
    ensures same_buffer { text.new.out.ghost_name ≡ text.old.out.ghost_name }
    ensures plays { Plays text.old.at
        (closing (length text.old.out.now - text.old.at) p.now (left p.now tape.now))
        (record { playing = p.now; stop = text.new.at; done = result })
        text.old.out.now text.new.out.now }
{
    if records::RECORD_LENGTH * p.reader.place < tape.len()
        || text.out.len() - text.at < MOST_ENDING
    {
        return false;
    }
    put_ending(p, text);
    true
}
