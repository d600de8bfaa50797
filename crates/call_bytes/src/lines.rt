// The lines of a call: what came back. They are gathered in a text and go to standard output many at once: a write for each of them
// costs more than the call. Programs have no heap, so the text is an array, and how much of it is filled stands beside it in the type.
ghost use Rattle.std.specs.Prelude.{◌≡◌, ◌+◌, ◌≤◌, length};

use crate::PATTERN;
use book::Book;
use premise::{File, Order};
use records::{Notice, RECORD_LENGTH};

// The length of a text that lines are gathered in.
pub const TEXT_BYTES: usize = 16_384;

// What is kept free for a line: the longest of 12 numbers has 254 bytes.
const LINE_BYTES: usize = 256;

// The lines that are gathered: they stand in the first bytes of the text, up to `at`.
#[derive(Drop)]
pub struct Lines<'a, P: Print> {
    rt: &'a P,
    pub text: [u8; TEXT_BYTES],
    pub at: usize,
    ghost inside: { at ≤ 16384 },
}

impl<'a, P: Print> Lines<'a, P> {
    // No line yet.
    pub fn new(rt: &'a P) -> Lines<'a, P> {
        Lines {
            rt,
            text: [0; TEXT_BYTES],
            at: 0,
        }
    }

    // Writes out the lines that are gathered. Whether they are taken is not asked.
    pub fn write_out(&mut self)
        ensures { self.new.at ≡ 0 }
    {
        let _ = self.rt.write_all(&self.text[..self.at]);
        self.at = 0;
    }

    // Makes room for a line: where the longest does not fit behind those that are gathered, they are written out.
    fn make_room(&mut self)
        ensures { self.new.at + 256 ≤ 16384 }
    {
        if TEXT_BYTES - self.at < LINE_BYTES {
            self.write_out();
        }
    }

    // A line: a letter and at most 12 numbers.
    pub fn say(&mut self, letter: u8, numbers: &[u64])
        requires { length numbers.now ≤ 12 }
    {
        self.make_room();
        self.at = tape_text::put_lettered(letter, numbers, self.at, &mut self.text);
    }

    // A notice's line.
    fn say_notice(&mut self, notice: Notice) {
        self.say(
            b'n',
            &[
                notice.code as u64,
                notice.kind as u64,
                notice.day as u64,
                notice.reference as u64,
                notice.premise,
                notice.addressee,
            ],
        );
    }

    // The lines of the first n notices of a buffer; fewer, where it does not hold so many.
    pub fn say_notices(&mut self, buffer: &[u8], n: usize) {
        for bytes in buffer.chunks_exact(RECORD_LENGTH).take(n) {
            self.say_notice(record_bytes::read_notice(bytes));
        }
    }

    // A line for each of the first n answers; fewer, where the buffer does not hold so many.
    pub fn say_answers(&mut self, answers: &[u8], n: usize) {
        for (place, &answer) in answers.iter().take(n).enumerate() {
            self.say_byte(b'a', place, answer);
        }
    }

    // The line of a byte at a place of a buffer.
    fn say_byte(&mut self, letter: u8, place: usize, byte: u8) {
        self.say(letter, &[place as u64, byte as u64]);
    }

    // A line for each byte of a buffer from a place on that is not the pattern any more.
    pub fn say_changed(&mut self, letter: u8, buffer: &[u8], from: usize) {
        for (place, &byte) in buffer.iter().enumerate().skip(from) {
            if byte != PATTERN {
                self.say_byte(letter, place, byte);
            }
        }
    }

    // The line of an order place of a file place.
    fn say_order(&mut self, file_place: usize, place: usize, order: &Order) {
        self.say(
            b'o',
            &[
                file_place as u64,
                place as u64,
                order.reference as u64,
                order.kind as u64,
                order.submitter,
                order.requested as u64,
                order.scheduled as u64,
                order.status as u64,
                order.waited.0 as u64,
                order.pending.0 as u64,
                order.told as u64,
                order.counter,
            ],
        );
    }

    // A file place's line, and those of its order places that are in use or not zero.
    fn say_file(&mut self, file_place: usize, file: &File) {
        self.say(
            b'f',
            &[
                file_place as u64,
                file.premise,
                file.retailer,
                file.since as u64,
                file.count as u64,
                file.window as u64,
                file.agreement,
                file.entered as u64,
            ],
        );
        for (place, order) in file.orders.iter().enumerate() {
            if place < file.count || !premise_kept::is_blank(order) {
                self.say_order(file_place, place, order);
            }
        }
    }

    // The book's line (T, the number of files, the four totals), and those of its file places that are in use or not zero.
    pub fn say_book(&mut self, book: &Book) {
        let waiting = book.waiting;
        self.say(
            b'b',
            &[
                book.today as u64,
                book.count as u64,
                waiting.review as u64,
                waiting.permit as u64,
                waiting.scheduled as u64,
                waiting.cancel as u64,
            ],
        );
        for (place, file) in book.files.iter().enumerate() {
            if place < book.count || !premise_kept::file_blank(file) {
                self.say_file(place, file);
            }
        }
    }
}
