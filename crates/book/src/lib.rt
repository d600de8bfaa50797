// The book layer's rules: today and up to 64 files. Here stand its types; what a record call does stands in specs/, from document 01's
// section "The book". `book_files` and `book_calls` do in code what the definitions say; the three demands stand in `demands`.
#![tactic(auto)]

use premise::{Answer, File};

// How many files a book holds at most.
pub const MOST_FILES: usize = 64;
// The shortest notice buffer that is taken: room for 1,024 notices, two for each order of a full book.
pub const NOTICE_BYTES: usize = 24_576;

// How many of the orders that a book's files hold are In Review, Permit Pending, Scheduled and Cancel Pending. (There are at most 512.)
#[derive(Clone, Copy)]
pub struct Waiting {
    pub review: u16,
    pub permit: u16,
    pub scheduled: u16,
    pub cancel: u16,
}

// The book, handed over by value. The first `count` places of `files` hold its files, in rising premise numbers; the others are zero. An
// array with its count, and no map: nothing of a book is on a heap, and a damaged one is any number and any 64 files.
#[derive(Clone, Copy)]
pub struct Book {
    pub today: u16,
    pub count: usize,
    // the four totals over its files, which every call keeps true
    pub waiting: Waiting,
    pub files: [File; 64],
}

// What a record call returns: the answer, how many notices stand in the buffer, and the book afterwards.
#[derive(Clone, Copy)]
pub struct Reply {
    pub answer: Answer,
    pub sent: usize,
    pub book: Book,
}

// What record calls in a row return: how many records were played, how many notices stand in the buffer, the answer of the last record, and
// the book afterwards.
#[derive(Clone, Copy)]
pub struct Playback {
    pub played: usize,
    pub sent: usize,
    pub last: Answer,
    pub book: Book,
}
