// A book with no file.
ghost use Rattle.std.specs.Prelude.{◌≡◌, []};
ghost use Rattle.book.specs.Book.{book_of};

use book::Book;

// A book with no file, and so with no order that waits.
pub fn empty(today: u16) -> Book
    ensures { result ≡ book_of today [] }
{
    let none = premise_file::blank_file();
    let waiting = crate::waiting::nothing();
    Book {
        today,
        count: 0,
        waiting,
        files: [none; book::MOST_FILES],
    }
}
