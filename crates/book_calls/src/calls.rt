// The public calls: a fresh book, a record on a book, and the question how many orders wait.
ghost use Rattle.std.specs.Prelude.{◌≡◌};
ghost use Rattle.book.specs.Book.{fresh_book};
ghost use Rattle.book.specs.Promise.{Promised, Shown};

use book::{Book, Reply, Waiting};
use premise::{Answer, Refusal};

// A fresh book. A start day above the last day starts at the last day.
pub fn fresh(start: u16) -> Book
    ensures { result ≡ fresh_book start }
{
    book_files::empty(start.min(days::LAST_DAY))
}

// How many orders wait in each open status. Document 02, change 11: "the question returns the stored four, from any book": none is counted
// and nothing is tested, so that a damaged book's numbers come back as they stand.
pub fn waiting_orders(b: Book) -> Waiting
    ensures { Shown b result }
{
    b.waiting
}

// A refusal: the book as it was, and no notice.
fn refuse(answer: Answer, b: Book) -> Reply
    ensures { result ≡ record { answer = answer; sent = 0; book = b } }
{
    Reply {
        answer,
        sent: 0,
        book: b,
    }
}

// A record on a book: the number of the first row of document 01's table that it meets, or acceptance. A record of another length than 24
// is malformed, and none of its bytes is played.
pub fn record_call(calendar: &[u8], b: Book, bytes: &[u8], buffer: &mut [u8]) -> Reply
    ensures { Promised calendar.now b bytes.now buffer.old result buffer.new }
{
    if buffer.len() < book::NOTICE_BYTES {
        return refuse(Err(Refusal::ShortBuffer), b);
    }
    if !book_files::book_kept(b) {
        return refuse(Err(Refusal::NotWellKept), b);
    }
    if bytes.len() != records::RECORD_LENGTH {
        return refuse(Err(Refusal::MalformedRecord), b);
    }
    let mut answers = [0u8; 1];
    let mut counts = [0u16; 1];
    let p = book_player::play(calendar, b, bytes, &mut answers, &mut counts, buffer);
    Reply {
        answer: p.last,
        sent: p.sent,
        book: p.book,
    }
}
