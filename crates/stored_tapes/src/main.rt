// Plays stored tapes, one after another: its arguments are pairs of files, a tape and its calendar (absent counts as empty). Before each
// tape's text stands a line with the tape's file name. `tapes/store` writes its data/, args and stdout, the latter with the second program.
#![tactic(auto)]

ghost use Rattle.std.specs.Prelude.{◌≤◌, length, IfOk};

use std::io;
use tape_io::Loop;

// Says on standard error which file can't be read.
fn complain(rt: &HostRuntime, path: &[u8], error: io::Error) {
    tape_io::fail(rt, path, error);
    tape_io::say(
        rt,
        b"stored_tapes: nothing more was played; run tapes/store and try again\n",
    );
}

// Reads the file that an argument names; what is wrong with it is said.
fn read_named(rt: &HostRuntime, i: usize, buffer: &mut [u8]) -> io::Result<usize>
    ensures { IfOk result (λ n. n ≤ length buffer.new) }
{
    let mut path = [0u8; tape_io::WORD_BYTES];
    let n = tape_io::word(rt, i, &mut path);
    match tape_io::fill_from(rt, &path[..n], buffer) {
        Ok(bytes) => Ok(bytes),
        Err(cut) => {
            complain(rt, &path[..n], cut.error);
            Err(cut.error)
        }
    }
}

// Writes the line with the name of the file that an argument names. Whether it is taken it doesn't ask: the tape's text comes behind it.
fn say_name(rt: &HostRuntime, i: usize) {
    let mut name = [0u8; tape_io::WORD_BYTES];
    let n = tape_io::word(rt, i, &mut name);
    let _ = rt.write_all(&name[..n]);
    let _ = rt.write_all(b"\n");
}

// Plays the tape that one argument names with the calendar that another names.
fn play_stored(rt: &HostRuntime, i: usize, j: usize) -> io::Result<()> {
    let mut calendar = [0u8; tape_io::CALENDAR_BYTES];
    let mut tape = [0u8; tape_io::TAPE_BYTES];
    let days = read_named(rt, j, &mut calendar)?;
    let bytes = read_named(rt, i, &mut tape)?;
    say_name(rt, i);
    tape_io::play::<Loop>(rt, &calendar[..days], &tape[..bytes])
}

fn main(rt: HostRuntime) {
    let count = tape_io::count_words(&rt);
    for j in (2..count).step_by(2) {
        if play_stored(&rt, j - 1, j).is_err() {
            return;
        }
    }
}
