// The waiting orders' program: it plays a tape and prints what the question shows of the book, one line `q A B C D`: In Review, Permit
// Pending, Scheduled, Cancel Pending. What it prints is proved up to the buffer (`waiting_in`); what can't be read or written is told on
// standard error, as the tape program tells it.
#![tactic(auto)]

ghost use Rattle.std.specs.Prelude.{◌≡◌, ◌+◌, ◌≤◌, length};
ghost use Rattle.book.specs.Calls.{notice_bytes};
ghost use Rattle.tape_text.specs.Numbers.{Puts};
ghost use Rattle.waiting.specs.Output.{waiting_line, waiting_line_most, waiting_output};

use book::Waiting;
use std::io;
use tape_text::Text;

// The letter that begins the line, and the most bytes of it.
const QUESTION: u8 = b'q';

const LINE_BYTES: usize = 86;

// The line of four totals.
fn put_waiting(w: Waiting, text: &mut Text)
    requires { text.old.at + waiting_line_most ≤ length text.old.out.now }
    ensures same_buffer { text.new.out.ghost_name ≡ text.old.out.ghost_name }
    ensures puts { Puts text.old.at text.old.out.now text.new.out.now text.new.at (waiting_line w) }
{
    text.lettered(
        QUESTION,
        &[
            w.review as u64,
            w.permit as u64,
            w.scheduled as u64,
            w.cancel as u64,
        ],
    );
}

// Plays a tape, asks the question, and puts the line.
fn waiting_in(calendar: &[u8], tape: &[u8], notices: &mut [u8], text: &mut Text)
    requires notice_bytes_in_bounds { notice_bytes ≤ length notices.old }
    requires waiting_line_most_in_bounds { text.old.at + waiting_line_most ≤ length text.old.out.now }
    ensures same_buffer { text.new.out.ghost_name ≡ text.old.out.ghost_name }
    ensures puts { Puts text.old.at text.old.out.now text.new.out.now text.new.at
        (waiting_output calendar.now tape.now) }
{
    let b = tape_book::played(calendar, tape, notices);
    put_waiting(book_calls::waiting_orders(b), text);
}

// The line in buffers of its own, written to standard output.
fn print_waiting(rt: &impl Print, calendar: &[u8], tape: &[u8]) -> io::Result<()> {
    let mut notices = [0u8; book::NOTICE_BYTES];
    let mut out = [0u8; LINE_BYTES];
    let mut text = Text::new(&mut out);
    waiting_in(calendar, tape, &mut notices, &mut text);
    let stop = text.at;
    rt.write_all(&out[..stop])
}

fn main(rt: HostRuntime) {
    tape_io::print_of_tape(&rt, b"waiting", |calendar, tape| {
        print_waiting(&rt, calendar, tape)
    });
}
