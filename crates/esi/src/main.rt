// esi DIRECTORY TEXT..: looks each text up in a directory of ESI IDs, and prints a line for each, the answer's number and the premise
// number. The directory is tested once. What is wrong, and what to do, goes to standard error, and then no line is printed.
#![tactic(auto)]

mod lines;

ghost use Rattle.std.specs.Prelude.{◌≡◌, ◌≤◌, length, IfOk, IfSome};
ghost use Rattle.esi.specs.Lines.{line_most};
ghost use Rattle.esi_rules.specs.Directory.{sound as directory_is_sound};
ghost use Rattle.esi_rules.specs.LookUp.{look_up};

use esi_rules::Refusal;
use std::io;
use std::rt::Env;

// The most bytes of a directory: 2,730 records.
const DIRECTORY_BYTES: usize = 65_520;

// The first text among the arguments: before it stand the program's name and the directory's.
const FIRST_TEXT: usize = 2;

// The room for lines, which are written many at once.
const OUT_BYTES: usize = 65_536;

// Says on standard error what was not done, and what to do.
fn advise(rt: &HostRuntime, advice: &[u8]) {
    tape_io::say(rt, advice);
}

// Says which file can't be read, and why.
fn complain(rt: &HostRuntime, path: &[u8], error: io::Error) {
    tape_io::fail(rt, path, error);
    advise(
        rt,
        b"esi: nothing was looked up; give a directory that can be read, as in: esi DIRECTORY TEXT..\n",
    );
}

// Reads a directory of a name; how many bytes came.
fn read_named(rt: &HostRuntime, path: &[u8], buffer: &mut [u8]) -> io::Result<usize>
    ensures { IfOk result (λ n. n ≤ length buffer.new) }
{
    let mut file = tape_io::open(rt, path)?;
    Ok(tape_io::fill(&mut file, buffer)?)
}

// Reads the directory that the first argument names; what is wrong with it is said.
fn read_directory(rt: &HostRuntime, buffer: &mut [u8]) -> Option<usize>
    ensures { IfSome result (λ n. n ≤ length buffer.new) }
{
    let mut path = [0u8; tape_io::WORD_BYTES];
    let n = match tape_io::file_name(rt, 1, &mut path) {
        Ok(n) => n,
        Err(error) => {
            complain(rt, b"esi: the directory's name", error);
            return None;
        }
    };
    match read_named(rt, &path[..n], buffer) {
        Ok(count) => Some(count),
        Err(error) => {
            complain(rt, &path[..n], error);
            None
        }
    }
}

// A look-up in a directory that was tested before: the test's result says whether it is sound.
fn look_up_tested(directory: &[u8], sound: bool, text: &[u8]) -> Result<u64, Refusal>
    requires { sound ≡ directory_is_sound directory.now }
    ensures { result ≡ look_up directory.now text.now }
{
    if !sound {
        return Err(Refusal::DirectoryUnsound);
    }
    esi_directory::find(directory, text)
}

// Looks the text of an argument up. A text that is longer than the buffer counts as empty: neither is 17 or 22 digits.
fn look_up_argument(rt: &impl Env, directory: &[u8], sound: bool, i: usize) -> Result<u64, Refusal>
    requires { sound ≡ directory_is_sound directory.now }
{
    let mut text = [0u8; tape_io::WORD_BYTES];
    let n = tape_io::word(rt, i, &mut text);
    look_up_tested(directory, sound, &text[..n])
}

// Prints a line for each text, by way of a buffer, until a write fails.
fn answer_in(
    rt: &(impl Env + Print),
    directory: &[u8],
    count: usize,
    out: &mut [u8],
) -> io::Result<()>
    requires { line_most ≤ length out.old }
{
    let sound = esi_directory::is_sound(directory);
    let mut at: usize = 0;
    for i in FIRST_TEXT..count {
        if out.len() - at < lines::LINE_MOST {
            rt.write_all(&out[..at])?;
            at = 0;
        }
        let answer = look_up_argument(rt, directory, sound, i);
        at = lines::put_line(answer, at, out);
    }
    rt.write_all(&out[..at])
}

// The same in a buffer of its own.
fn answer_all(rt: &(impl Env + Print), directory: &[u8], count: usize) -> io::Result<()> {
    let mut out = [0u8; OUT_BYTES];
    answer_in(rt, directory, count, &mut out)
}

// Reads the directory, and looks up in it; one byte more than it may have shows that it is too long.
fn main(rt: HostRuntime) {
    let count = tape_io::count_words(&rt);
    if count < FIRST_TEXT {
        advise(
            &rt,
            b"esi: give a directory of ESI IDs and the texts to look up, as in: esi DIRECTORY TEXT..\n",
        );
        return;
    }
    let mut directory = [0u8; DIRECTORY_BYTES + 1];
    let Some(n) = read_directory(&rt, &mut directory) else {
        return;
    };
    if DIRECTORY_BYTES < n {
        advise(
            &rt,
            b"esi: the directory has more than 65,520 bytes; nothing was looked up; give one of at most 2,730 records\n",
        );
        return;
    }
    if let Err(error) = answer_all(&rt, &directory[0..n], count) {
        tape_io::fail(&rt, b"esi: cannot write to standard output", error);
        advise(
            &rt,
            b"esi: the output is not whole; make room or give another place, and look up again\n",
        );
    }
}
