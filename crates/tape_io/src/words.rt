// The words that a program was started with, its own name first.
ghost use Rattle.std.specs.Prelude.{◌≤◌, length, IfOk};

use std::env::FillError;
use std::io;
use std::rt::Env;

// The room for a word: any path has fewer bytes.
pub const WORD_BYTES: usize = 4_096;

// The system's numbers for a name that is too long, and for a word that there is not.
const NAME_TOO_LONG: i32 = 36;

const INVALID_ARGUMENT: i32 = 22;

// How many words there are.
pub fn count_words(env: &impl Env) -> usize {
    for i in 0..usize::MAX {
        if let Err(FillError::NotPresent) = env.arg(i, &mut []) {
            return i;
        }
    }
    usize::MAX
}

// Puts a word at the start of a buffer; how many bytes it has, or 0 where there is no such word or it is longer than the buffer.
pub fn word(env: &impl Env, i: usize, buffer: &mut [u8]) -> usize
    ensures { result ≤ length buffer.new }
{
    match env.arg(i, buffer) {
        Ok(n) => n,
        Err(_) => 0,
    }
}

// Puts a word that names a file at the start of a buffer; how many bytes it has. A name that is too long is not cut: it is an error.
pub fn file_name(env: &impl Env, i: usize, buffer: &mut [u8]) -> io::Result<usize>
    ensures { IfOk result (λ n. n ≤ length buffer.new) }
{
    match env.arg(i, buffer) {
        Ok(n) => Ok(n),
        Err(FillError::NotPresent) => Err(io::Error::from_raw_os_error(INVALID_ARGUMENT)),
        Err(_) => Err(io::Error::from_raw_os_error(NAME_TOO_LONG)),
    }
}
