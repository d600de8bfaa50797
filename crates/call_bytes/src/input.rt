// The parts of a call, read from standard input to a buffer that is lent.
use crate::PATTERN;
use crate::book_bytes::{BOOK_BYTES, book_from};
use crate::fault::Fault;
use book::Book;

// Fills a buffer.
fn take(rt: &HostRuntime, buffer: &mut [u8]) -> Result<(), Fault> {
    match tape_io::fill(&mut rt.stdin(), buffer) {
        Ok(count) if count == buffer.len() => Ok(()),
        _ => Err(Fault::CallBreaksOff),
    }
}

// Reads a length of four bytes.
fn take_length(rt: &HostRuntime) -> Result<usize, Fault> {
    let mut four = [0u8; 4];
    take(rt, &mut four)?;
    Ok(u32::from_le_bytes(four) as usize)
}

// Reads a length and so many bytes to the start of a buffer; these bytes.
pub fn take_part<'a>(rt: &HostRuntime, buffer: &'a mut [u8]) -> Result<&'a [u8], Fault> {
    let length = take_length(rt)?;
    let part = buffer.get_mut(..length).ok_or(Fault::LongPart)?;
    take(rt, part)?;
    Ok(part)
}

// Reads the length of a buffer that is lent to the call; so much of this one, filled with the pattern.
pub fn take_room<'a>(rt: &HostRuntime, buffer: &'a mut [u8]) -> Result<&'a mut [u8], Fault> {
    let length = take_length(rt)?;
    let room = buffer.get_mut(..length).ok_or(Fault::LongBuffer)?;
    room.fill(PATTERN);
    Ok(room)
}

// Reads a book, with which a call begins; at the end of the input none comes, and that is no fault.
pub fn take_book(rt: &HostRuntime) -> Result<Option<Book>, Fault> {
    let mut bytes = [0u8; BOOK_BYTES];
    match tape_io::fill(&mut rt.stdin(), &mut bytes) {
        Ok(0) => Ok(None),
        Ok(BOOK_BYTES) => Ok(Some(book_from(&bytes))),
        Ok(_) => Err(Fault::BookBreaksOff),
        Err(_) => Err(Fault::Unreadable),
    }
}
