// Lines of numbers in base ten.
ghost use Rattle.std.specs.Prelude.{◌≡◌, ◌+◌, ◌≤◌, length};
ghost use Rattle.tape_text.specs.Numbers.{spaced, lettered, Puts};

use crate::text::Text;

const SPACE: u8 = b' ';

const NEWLINE: u8 = b'\n';

impl<'a> Text<'a> {
    // Numbers with a space before each, to the end of the line.
    pub fn spaced(&mut self, numbers: &[u64])
        requires { self.old.at + length (spaced numbers.now) ≤ length self.old.out.now }
        ensures same_buffer { self.new.out.ghost_name ≡ self.old.out.ghost_name }
        ensures puts { Puts self.old.at self.old.out.now self.new.out.now self.new.at
            (spaced numbers.now) }
    {
        for n in numbers {
            self.byte(SPACE);
            self.number(*n);
        }
        self.byte(NEWLINE);
    }

    // A line that begins with a letter.
    pub fn lettered(&mut self, letter: u8, numbers: &[u64])
        requires { self.old.at + length (lettered letter numbers.now) ≤ length self.old.out.now }
        ensures same_buffer { self.new.out.ghost_name ≡ self.old.out.ghost_name }
        ensures puts { Puts self.old.at self.old.out.now self.new.out.now self.new.at
            (lettered letter numbers.now) }
    {
        self.byte(letter);
        self.spaced(numbers);
    }
}

// A line that begins with a letter, at a place of a buffer, for who has no text under way; where it ends.
pub fn put_lettered(letter: u8, numbers: &[u64], start: usize, out: &mut [u8]) -> usize
    requires { start + length (lettered letter numbers.now) ≤ length out.old }
    ensures { Puts start out.old out.new result (lettered letter numbers.now) }
{
    let mut text = Text { out, at: start };
    text.lettered(letter, numbers);
    text.at
}
