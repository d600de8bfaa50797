// Plays stretches of tape in one call each on books handed in as bytes, damaged ones too, and prints what comes back, so that the proved
// call can be compared with the second program call by call. Document 02, change 5.
//
// The bytes of a call: the book as in single_calls; the calendar and the stretch, each its length (4 bytes, low byte first) and its bytes;
// the length of the answer buffer (4); the length of the notice buffer (4). Every byte of both buffers is 165.
//
// Its lines: `c` place answer played written; `a` i byte for each record played, i from 0; `n` .. for each notice written; `x` place byte
// for each notice byte past those written that is no longer 165; `y` place byte for each answer byte past the number played that is no
// longer 165; then the book's lines.
#![tactic(auto)]

use call_bytes::{Fault, Lines, take_book, take_part, take_room};
use records::RECORD_LENGTH;
use stretch_rules::Replies;

// The program's name, for what it says on standard error.
const NAME: &str = "block_calls";

// The longest calendar, stretch, answer buffer and notice buffer that are taken.
const LONGEST_CALENDAR: usize = 8_192;

const LONGEST_STRETCH: usize = 65_520;

const LONGEST_ANSWERS: usize = 4_096;

const LONGEST_NOTICES: usize = 131_072;

// Prints the lines of a call: what it returned, and what stands in the buffers, the bytes behind the answers and the notices among it.
fn print<P: Print>(
    lines: &mut Lines<P>,
    place: u64,
    replies: &Replies,
    answers: &[u8],
    notices: &[u8],
) {
    let number = stretch_calls::number_of(replies.answer);
    lines.say(
        b'c',
        &[
            place,
            number as u64,
            replies.played as u64,
            replies.sent as u64,
        ],
    );
    lines.say_answers(answers, replies.played);
    lines.say_notices(notices, replies.sent);
    lines.say_changed(b'x', notices, replies.sent.saturating_mul(RECORD_LENGTH));
    lines.say_changed(b'y', answers, replies.played);
    lines.say_book(&replies.book);
    lines.write_out();
}

// Reads one call, makes it and prints its lines; whether one came.
fn play_one(rt: &HostRuntime, lines: &mut Lines<HostRuntime>, place: u64) -> Result<bool, Fault> {
    // Before the first way out: made behind it, they would be filled with zeros twice.
    let mut calendar = [0u8; LONGEST_CALENDAR];
    let mut tape = [0u8; LONGEST_STRETCH];
    let mut answers = [0u8; LONGEST_ANSWERS];
    let mut notices = [0u8; LONGEST_NOTICES];
    let Some(book) = take_book(rt)? else {
        return Ok(false);
    };
    let calendar = take_part(rt, &mut calendar)?;
    let tape = take_part(rt, &mut tape)?;
    let answers = take_room(rt, &mut answers)?;
    let notices = take_room(rt, &mut notices)?;
    let replies = stretch_calls::record_calls(calendar, book, tape, answers, notices);
    print(lines, place, &replies, answers, notices);
    Ok(true)
}

// Plays calls to the end of the input.
fn main(rt: HostRuntime) {
    let mut lines = Lines::new(&rt);
    call_bytes::play_all(&rt, NAME, |place| play_one(&rt, &mut lines, place));
}
