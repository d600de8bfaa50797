// Numbers in base ten.
ghost use Rattle.std.specs.Prelude.{◌≡◌, ◌+◌, ◌≤◌, length};
ghost use Rattle.tape_text.specs.Numbers.{decimal, Puts};

use crate::text::Text;

const DIGIT_ZERO: u8 = b'0';

// How many digits a number has, so that they can be written from the last to the first.
fn count_digits(n: u64) -> usize
    ensures { result ≡ length (decimal n) }
{
    n.max(1).ilog10() as usize + 1
}

impl<'a> Text<'a> {
    // A number in base ten.
    pub fn number(&mut self, n: u64)
        requires { self.old.at + length (decimal n) ≤ length self.old.out.now }
        ensures same_buffer { self.new.out.ghost_name ≡ self.old.out.ghost_name }
        ensures puts { Puts self.old.at self.old.out.now self.new.out.now self.new.at (decimal n) }
    {
        let stop = self.at + count_digits(n);
        let mut left = n;
        for place in (self.at + 1..stop).rev() {
            self.out[place] = DIGIT_ZERO + (left % 10) as u8;
            left /= 10;
        }
        self.out[self.at] = DIGIT_ZERO + left as u8;
        self.at = stop;
    }
}

// A number at a place of a buffer, for who has no text under way; where it ends.
pub fn put_number(n: u64, start: usize, out: &mut [u8]) -> usize
    requires { start + length (decimal n) ≤ length out.old }
    ensures { Puts start out.old out.new result (decimal n) }
{
    let mut text = Text { out, at: start };
    text.number(n);
    text.at
}
