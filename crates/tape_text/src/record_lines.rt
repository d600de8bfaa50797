// The line of a record and that of a notice.
ghost use Rattle.std.specs.Prelude.{◌≡◌, ◌+◌, ◌≤◌, length};
ghost use Rattle.records.specs.Layout.{record_length};
ghost use Rattle.records.specs.Notices.{decode};
ghost use Rattle.tape_text.specs.Numbers.{Puts};
ghost use Rattle.tape_text.specs.Text.{record_line, notice_line};

use crate::text::Text;
use record_bytes::read_notice;

// The letter that begins a notice's line.
const NOTICE: u8 = b'n';

impl<'a> Text<'a> {
    // The line of a record: its place, its answer, and how many notices it gave.
    pub fn record(&mut self, place: usize, answer: u8, n: usize)
        requires { self.old.at + length (record_line place answer n) ≤ length self.old.out.now }
        ensures same_buffer { self.new.out.ghost_name ≡ self.old.out.ghost_name }
        ensures puts { Puts self.old.at self.old.out.now self.new.out.now self.new.at
            (record_line place answer n) }
    {
        self.number(place as u64);
        self.spaced(&[answer as u64, n as u64]);
    }

    // The line of a notice, read from its 24 bytes.
    pub fn notice(&mut self, bytes: &[u8])
        requires record_length_in_bounds { record_length ≤ length bytes.now }
        requires bytes_in_bounds { self.old.at + length (notice_line (decode bytes.now)) ≤ length self.old.out.now }
        ensures same_buffer { self.new.out.ghost_name ≡ self.old.out.ghost_name }
        ensures puts { Puts self.old.at self.old.out.now self.new.out.now self.new.at
            (notice_line (decode bytes.now)) }
    {
        let notice = read_notice(bytes);
        let code = notice.code as u64;
        let kind = notice.kind as u64;
        let day = notice.day as u64;
        let reference = notice.reference as u64;
        let premise = notice.premise;
        let addressee = notice.addressee;
        self.lettered(NOTICE, &[code, kind, day, reference, premise, addressee]);
    }
}
