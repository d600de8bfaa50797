// Makes single record calls on books handed in as bytes, damaged ones too, and prints what comes back, so that the proved call can be
// compared with the second program call by call. The layout of the bytes and of the lines stands at the top of the second program's
// callcheck.rs (reference/stacking/src/bin).
#![tactic(auto)]

use book::Reply;
use call_bytes::{Fault, Lines, take_book, take_part, take_room};
use records::RECORD_LENGTH;

// The program's name, for what it says on standard error.
const NAME: &str = "single_calls";

// The longest calendar, record and notice buffer that are taken.
const LONGEST_CALENDAR: usize = 8_192;

const LONGEST_RECORD: usize = 256;

const LONGEST_BUFFER: usize = 65_536;

// Prints the lines of a call: what it returned, and what stands in the notice buffer.
fn print<P: Print>(lines: &mut Lines<P>, place: u64, reply: &Reply, buffer: &[u8]) {
    let number = premise_rows::number_of(reply.answer);
    lines.say(b'c', &[place, number as u64, reply.sent as u64]);
    lines.say_notices(buffer, reply.sent);
    lines.say_changed(b'x', buffer, reply.sent.saturating_mul(RECORD_LENGTH));
    lines.say_book(&reply.book);
    lines.write_out();
}

// Reads one call, makes it and prints its lines; whether one came.
fn play_one(rt: &HostRuntime, lines: &mut Lines<HostRuntime>, place: u64) -> Result<bool, Fault> {
    // Before the first way out: made behind it, they would be filled with zeros twice.
    let mut calendar = [0u8; LONGEST_CALENDAR];
    let mut bytes = [0u8; LONGEST_RECORD];
    let mut buffer = [0u8; LONGEST_BUFFER];
    let Some(book) = take_book(rt)? else {
        return Ok(false);
    };
    let calendar = take_part(rt, &mut calendar)?;
    let bytes = take_part(rt, &mut bytes)?;
    let buffer = take_room(rt, &mut buffer)?;
    let reply = book_calls::record_call(calendar, book, bytes, buffer);
    print(lines, place, &reply, buffer);
    Ok(true)
}

// Plays calls to the end of the input.
fn main(rt: HostRuntime) {
    let mut lines = Lines::new(&rt);
    call_bytes::play_all(&rt, NAME, |place| play_one(&rt, &mut lines, place));
}
