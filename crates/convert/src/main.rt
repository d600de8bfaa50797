// Converts a tape between the first fittings' records and ours (document 02, change 9), as a filter:
//
//   convert to24 <OLD >NEW       from records of 20 bytes, high byte first, to ours of 24
//   convert to20 <OURS >OLD      the other way
//   convert to24 ROOM <OLD       with ROOM bytes to write to, where else there are as many as are needed
//
// What is written is proved in `first_fittings`; here a tape is read and handed over. One that is refused has nothing on standard output,
// and on standard error the answer's number and what to do.
#![tactic(auto)]

ghost use Rattle.std.specs.Prelude.{◌≡◌, ◌≤◌, IfOk, IfSome, length};
ghost use Rattle.convert.specs.Sizes.{most_in, most_out};

use first_fittings_rules::{OLD_LENGTH, OUR_LENGTH, Refusal};
use std::io;
use std::io::{ErrorKind, Read};
use std::rt::Env;

// The longest tape that is taken, whole records of either size, and what it is converted to at most.
const MOST_IN: usize = 1_048_560;

const MOST_OUT: usize = 1_258_272;

// The way that the first word asks for.
#[derive(Debug, Clone, Copy, PartialEq, Eq)]
enum Way {
    To24,
    To20,
}

impl Way {
    // The length of the records that come in, and of those that they become.
    fn takes(self) -> usize {
        match self {
            Way::To24 => OLD_LENGTH,
            Way::To20 => OUR_LENGTH,
        }
    }

    // How many bytes a tape's whole records are converted to.
    fn needed_for(self, bytes: usize) -> usize
        requires { bytes ≤ most_in }
        ensures { result ≤ most_out }
    {
        match self {
            Way::To24 => OUR_LENGTH * (bytes / OLD_LENGTH),
            Way::To20 => OLD_LENGTH * (bytes / OUR_LENGTH),
        }
    }

    // Converts a tape; how many bytes were written, or why it was refused.
    fn convert(self, tape: &[u8], output: &mut [u8]) -> Result<usize, Refusal>
        ensures { IfOk result (λ written. written ≤ length output.new) }
    {
        match self {
            Way::To24 => first_fittings::to_24(tape, output),
            Way::To20 => first_fittings::to_20(tape, output),
        }
    }
}

// Said of what follows the first word where it is not one number of bytes up to the most.
#[derive(Debug, Clone, Copy, PartialEq, Eq)]
struct Unclear;

// A buffer of zeros. It says its length alone, so that no proof counts them off.
fn zeros<const N: usize>() -> [u8; N]
    ensures { N ≡ length result }
{
    [0; N]
}

// Says words on standard error.
fn say(rt: &HostRuntime, words: &[u8]) {
    tape_io::say(rt, words);
}

// Says a number on standard error, and words behind it.
fn say_number(rt: &HostRuntime, n: usize, words: &[u8]) {
    let _ = eprint!(rt; "{n}");
    say(rt, words);
}

// Says why a tape was refused, and what to do.
fn explain(
    rt: &HostRuntime,
    refusal: Refusal,
    bytes: usize,
    size: usize,
    room: usize,
    needed: usize,
) {
    say(rt, b"convert: ");
    let number = first_fittings::number_of(Err(refusal));
    say_number(rt, number as usize, b": ");
    match refusal {
        Refusal::NotWhole => {
            say_number(rt, bytes, b" bytes are no multiple of ");
            say_number(rt, size, b"; give whole records\n");
        }
        Refusal::ShortBuffer => {
            say_number(rt, room, b" bytes of room are fewer than the ");
            say_number(rt, needed, b" of the converted tape; give more\n");
        }
        Refusal::LastBytesUsed => say(
            rt,
            b"a record has a byte in 20 to 23 that is not zero, and 20 bytes have no place for it; set it to zero\n",
        ),
    }
}

// The room that a word of digits gives, up to the most that there is. `parse` would take a sign before them too.
fn room_in(word: &[u8]) -> Result<usize, Unclear>
    ensures { IfOk result (λ room. room ≤ most_out) }
{
    if word.is_empty() {
        return Err(Unclear);
    }
    let mut room: usize = 0;
    for digit in word {
        if !digit.is_ascii_digit() {
            return Err(Unclear);
        }
        room = 10 * room + (*digit - b'0') as usize;
        if MOST_OUT < room {
            return Err(Unclear);
        }
    }
    Ok(room)
}

// The way, by the first word.
fn way_in(env: &impl Env) -> Option<Way> {
    let mut word = [0u8; tape_io::WORD_BYTES];
    let n = tape_io::word(env, 1, &mut word);
    match &word[..n] {
        b"to24" => Some(Way::To24),
        b"to20" => Some(Way::To20),
        _ => None,
    }
}

// The room, by the second word; none is given where there is no such word.
fn room_given(env: &impl Env) -> Result<Option<usize>, Unclear>
    ensures { IfOk result (λ given. IfSome given (λ room. room ≤ most_out)) }
{
    let count = tape_io::count_words(env);
    if count < 3 {
        return Ok(None);
    }
    if 3 < count {
        return Err(Unclear);
    }
    let mut word = [0u8; tape_io::WORD_BYTES];
    let n = tape_io::word(env, 2, &mut word);
    let room = room_in(&word[..n])?;
    Ok(Some(room))
}

// Converts a tape and writes it to standard output, or says why it was refused.
fn convert(rt: &HostRuntime, way: Way, needed: usize, tape: &[u8], output: &mut [u8]) {
    match way.convert(tape, output) {
        Ok(written) => {
            if let Err(error) = rt.write_all(&output[..written]) {
                tape_io::fail(
                    rt,
                    b"convert: cannot write to standard output; what stands there is not whole: make room, and convert the tape again",
                    error,
                );
            }
        }
        Err(refusal) => explain(rt, refusal, tape.len(), way.takes(), output.len(), needed),
    }
}

// Converts a tape with the room that is given, or with as much as is needed.
fn convert_in(rt: &HostRuntime, way: Way, given: Option<usize>, tape: &[u8])
    requires { (length tape.now ≤ most_in) × IfSome given (λ room. room ≤ most_out) }
{
    let needed = way.needed_for(tape.len());
    let room = given.unwrap_or(needed);
    let mut output = zeros::<MOST_OUT>();
    convert(rt, way, needed, tape, &mut output[..room]);
}

// Says that a read failed, and why.
fn complain(rt: &HostRuntime, error: io::Error) {
    tape_io::fail(
        rt,
        b"convert: cannot read the tape from standard input; give a readable file or pipe",
        error,
    );
}

// Reads standard input to its end and converts it. A byte that comes behind an end, or behind a read that failed, is no part of a tape.
fn convert_input(rt: &HostRuntime, way: Way, given: Option<usize>)
    requires { IfSome given (λ room. room ≤ most_out) }
{
    let mut tape = zeros::<MOST_IN>();
    let mut input = rt.stdin();
    let (count, failed) = match tape_io::fill(&mut input, &mut tape) {
        Ok(count) => (count, None),
        Err(cut) => (cut.count, Some(cut.error)),
    };
    let mut next = [0u8; 1];
    match input.read(&mut next) {
        Ok(0) => convert_in(rt, way, given, &tape[..count]),
        Ok(_) if count < MOST_IN => complain(
            rt,
            failed.unwrap_or(io::Error::from(ErrorKind::UnexpectedEof)),
        ),
        Ok(_) => say(
            rt,
            b"convert: the tape has more than the 1048560 bytes that are taken; give it in parts of whole records\n",
        ),
        Err(error) => complain(rt, error),
    }
}

fn main(rt: HostRuntime) {
    let Some(way) = way_in(&rt) else {
        say(
            &rt,
            b"convert: the first word is neither to24 nor to20; give one of them, as in: convert to24 <OLD >NEW\n",
        );
        return;
    };
    let Ok(given) = room_given(&rt) else {
        say(
            &rt,
            b"convert: what follows the first word is not one number of bytes up to 1258272; give one, or nothing\n",
        );
        return;
    };
    convert_input(&rt, way, given);
}
