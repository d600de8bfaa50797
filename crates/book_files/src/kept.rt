// Whether a book is well kept.
ghost use Rattle.std.specs.Prelude.{◌≡◌};
ghost use Rattle.book.specs.Book.{book_kept};

use book::Book;

// Whether a book is well kept. Every book is answered, whatever its fields hold. (Two loops in one function: a call would copy the book.)
// The waiting orders are added up file by file: the test of each counts them on its way.
pub fn book_kept(b: Book) -> bool
    ensures { result ≡ book_kept b }
{
    if days::LAST_DAY < b.today {
        return false;
    }
    let n = b.count;
    if book::MOST_FILES < n {
        return false;
    }
    let mut waiting: u64 = 0;
    let mut last: u64 = 0;
    let mut i: usize = 0;
    'held: while i < n {
        let file = &b.files[i];
        if file.premise <= last {
            return false;
        }
        let Some(counts) = premise_kept::file_kept(file) else {
            return false;
        };
        waiting += counts;
        last = file.premise;
        i += 1;
    }
    let w = b.waiting;
    if premise_kept::packed(w.review, w.permit, w.scheduled, w.cancel) != waiting {
        return false;
    }
    'unused: while i < book::MOST_FILES {
        if !premise_kept::file_blank(&b.files[i]) {
            return false;
        }
        i += 1;
    }
    true
}
