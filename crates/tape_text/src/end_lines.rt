// The lines at the end: a file's, and the last.
ghost use Rattle.std.specs.Prelude.{◌≡◌, ◌+◌, ◌≤◌, length};
ghost use Rattle.tape_text.specs.Numbers.{Puts};
ghost use Rattle.tape_text.specs.Text.{file_line, total_line};

use crate::text::Text;

// The letters that begin them.
const FILE: u8 = b'p';

const TOTAL: u8 = b't';

impl<'a> Text<'a> {
    // The line of a file: its premise, its retailer, and the day since which the retailer holds.
    pub fn file(&mut self, premise: u64, retailer: u64, since: u16)
        requires { self.old.at + length (file_line premise retailer since) ≤ length self.old.out.now }
        ensures same_buffer { self.new.out.ghost_name ≡ self.old.out.ghost_name }
        ensures puts { Puts self.old.at self.old.out.now self.new.out.now self.new.at
            (file_line premise retailer since) }
    {
        self.lettered(FILE, &[premise, retailer, since as u64]);
    }

    // The last line: how many records were accepted and how many refused.
    pub fn total(&mut self, accepted: usize, refused: usize)
        requires { self.old.at + length (total_line accepted refused) ≤ length self.old.out.now }
        ensures same_buffer { self.new.out.ghost_name ≡ self.old.out.ghost_name }
        ensures puts { Puts self.old.at self.old.out.now self.new.out.now self.new.at
            (total_line accepted refused) }
    {
        self.lettered(TOTAL, &[accepted as u64, refused as u64]);
    }
}
