// The tape program but for its name: a tape read, played, and what is wrong with it told. What it prints is proved in `tape_player`.
ghost use Rattle.std.specs.Prelude.{◌≡◌};
ghost use Rattle.tape_io.specs.Advice.{is_character, begins_as_text};

use crate::input::{fill, fill_from};
use crate::messages::{fail, say};
use crate::playing::{CALENDAR_BYTES, TAPE_BYTES, play};
use std::io;
use tape_player::Player;

// Says on standard error, in a program's name, what went wrong and what to do.
pub fn complain(rt: &HostRuntime, program: &[u8], what: &[u8], error: io::Error, advice: &[u8]) {
    say(rt, program);
    fail(rt, what, error);
    say(rt, program);
    say(rt, advice);
}

// Whether a byte is a character of a text.
fn is_character(byte: u8) -> bool
    ensures { result ≡ is_character byte }
{
    matches!(byte, b' '..=b'~' | b'\t'..=b'\r')
}

// Whether a tape begins as a readable one does, with four characters: the second of a record would be its detail.
fn begins_as_text(tape: &[u8]) -> bool
    ensures { result ≡ begins_as_text tape.now }
{
    if tape.len() < 4 {
        return false;
    }
    is_character(tape[0]) & is_character(tape[1]) & is_character(tape[2]) & is_character(tape[3])
}

// Says on standard error, in a program's name, what a tape that was played may be lacking: a calendar, or its bytes.
pub fn advise(rt: &HostRuntime, program: &[u8], days: usize, tape: &[u8]) {
    if days == 0 {
        say(rt, program);
        say(
            rt,
            b": played without business days: calendar.bin in the current folder is missing or empty\n",
        );
    }
    if begins_as_text(tape) {
        say(rt, program);
        say(
            rt,
            b": the tape begins as a text, but records are bytes; make them of it by tapetext encode, or play it by ./play\n",
        );
    }
}

// Reads the first 4,096 bytes of calendar.bin (absent counts as empty) and the first 65,520 bytes of standard input, a tape, and hands them
// on. What can't be read is told on standard error, in a program's name, and then nothing is handed on.
pub fn with_tape<F: FnOnce(&[u8], &[u8])>(rt: &HostRuntime, program: &[u8], play: F)
    requires { F.IsAlwaysCallable play }
{
    let mut calendar = [0u8; CALENDAR_BYTES];
    let days = match fill_from(rt, b"calendar.bin", &mut calendar) {
        Ok(days) => days,
        Err(cut) => {
            complain(
                rt,
                program,
                b": cannot read calendar.bin in the current folder",
                cut.error,
                b": nothing was played; make it a readable file, or remove it to play with an empty calendar\n",
            );
            return;
        }
    };
    let mut tape = [0u8; TAPE_BYTES];
    let bytes = match fill(&mut rt.stdin(), &mut tape) {
        Ok(bytes) => bytes,
        Err(cut) => {
            complain(
                rt,
                program,
                b": cannot read the tape from standard input",
                cut.error,
                b": nothing was played; give a readable file or pipe, as in: ",
            );
            say(rt, program);
            say(rt, b" < TAPE\n");
            return;
        }
    };
    play(&calendar[..days], &tape[..bytes]);
}

// A program that prints something of a calendar and a tape: both are read, handed on to be printed, and what is wrong is told.
pub fn print_of_tape<F: FnOnce(&[u8], &[u8]) -> io::Result<()>>(
    rt: &HostRuntime,
    program: &[u8],
    print: F,
)
    requires { F.IsAlwaysCallable print }
{
    with_tape(rt, program, |calendar, tape| match print(calendar, tape) {
        Ok(()) => advise(rt, program, calendar.len(), tape),
        Err(error) => complain(
            rt,
            program,
            b": cannot write to standard output",
            error,
            b": the output is not whole; make room or give another place, and play the tape again\n",
        ),
    });
}

// The tape program, whoever plays the records: over a fresh book at day 0, and it prints what the calls gave.
pub fn run<P: Player>(rt: &HostRuntime) {
    print_of_tape(rt, b"tape", |calendar, tape| play::<P>(rt, calendar, tape));
}
