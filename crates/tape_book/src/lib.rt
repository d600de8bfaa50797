// The book that a tape leads to.
#![tactic(auto)]

ghost use Rattle.std.specs.Prelude.{◌≡◌, ◌≤◌, length};
ghost use Rattle.book.specs.Book.{fresh_book};
ghost use Rattle.book.specs.Calls.{notice_bytes};
ghost use Rattle.book.specs.CallsInRow.{records_of};
ghost use Rattle.tape_book.specs.Played.{book_after};

use book::Book;
use records::RECORD_LENGTH;

// Plays a tape over a fresh book at day 0, a record call each; the notices are not looked at.
pub fn played(calendar: &[u8], tape: &[u8], notices: &mut [u8]) -> Book
    requires { notice_bytes ≤ length notices.old }
    ensures { result ≡ book_after calendar.now (fresh_book 0)
        (records_of (length tape.now) tape.now) }
{
    let mut b = book_calls::fresh(0);
    for record in tape.chunks(RECORD_LENGTH) {
        b = book_calls::record_call(calendar, b, record, notices).book;
    }
    b
}
