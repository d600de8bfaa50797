// The programs' reading, from files and from standard input.
ghost use Rattle.std.specs.Prelude.{◌≤◌, length, MatchResult};

use std::io::{ErrorKind, Read};
use std::rt::Files;
use std::{fs, io, str};

// Input that broke off: how many bytes came before the read that failed, and why it did.
#[derive(Clone, Copy)]
pub struct Cut {
    pub count: usize,
    pub error: io::Error,
}

impl From<Cut> for io::Error {
    fn from(cut: Cut) -> io::Error {
        cut.error
    }
}

// Reads until the buffer is full, the input ends or a read fails; how many bytes came. Input may come in
// pieces: how long each is the reader says, so that no `for` counts them.
pub fn fill<R: Read>(reader: &mut R, buffer: &mut [u8]) -> Result<usize, Cut>
    ensures { MatchResult result (λ n. n ≤ length buffer.new)
        (λ cut. cut.count ≤ length buffer.new) }
{
    let mut count = 0;
    while count < buffer.len() {
        match reader.read(&mut buffer[count..]) {
            Ok(0) => break,
            Ok(more) => count += more,
            Err(error) => return Err(Cut { count, error }),
        }
    }
    Ok(count)
}

// Opens a file for reading. A name is text: the system is asked for no other.
pub fn open<R: Files>(files: &R, path: &[u8]) -> io::Result<R::File> {
    match str::from_utf8(path) {
        Ok(name) => fs::open(files, name),
        Err(_) => Err(io::Error::new(ErrorKind::InvalidInput, "the name is not UTF-8")),
    }
}

// Reads the first bytes of a file; how many came. An absent one counts as empty. One that can't be opened gave none.
pub fn fill_from(files: &impl Files, path: &[u8], buffer: &mut [u8]) -> Result<usize, Cut>
    ensures { MatchResult result (λ n. n ≤ length buffer.new)
        (λ cut. cut.count ≤ length buffer.new) }
{
    match open(files, path) {
        Ok(mut file) => fill(&mut file, buffer),
        Err(error) if error.kind() == ErrorKind::NotFound => Ok(0),
        Err(error) => Err(Cut { count: 0, error }),
    }
}
