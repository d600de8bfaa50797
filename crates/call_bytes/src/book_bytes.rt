// A book from its bytes: all numbers low byte first, every place of it written whether it is used or not, in range or
// not.
ghost use Rattle.std.specs.Prelude.{◌+◌, ◌≤◌, length};

use book::{Book, Waiting};
use premise::{BusinessDays, CalendarDays, File, Order};
use record_bytes::{eight, four, two};

const ORDER_BYTES: usize = 25;

// a file: its head, and 8 orders
const HEAD_BYTES: usize = 29;

const FILE_BYTES: usize = 229;

// a book: its head, and 64 files
const BOOK_HEAD_BYTES: usize = 11;

pub const BOOK_BYTES: usize = 14_667;

// An order, from its 25 bytes.
fn order_from(bytes: &[u8], at: usize) -> Order
    requires { at + 25 ≤ length bytes.now }
{
    Order {
        reference: four(bytes, at),
        kind: bytes[at + 4],
        submitter: eight(bytes, at + 5),
        requested: two(bytes, at + 13),
        scheduled: two(bytes, at + 15),
        status: bytes[at + 17],
        waited: BusinessDays(bytes[at + 18]),
        pending: CalendarDays(bytes[at + 19]),
        told: bytes[at + 20],
        counter: four(bytes, at + 21) as u64,
    }
}

// A file, from its 229 bytes.
fn file_from(bytes: &[u8], at: usize) -> File
    requires { at + 229 ≤ length bytes.now }
{
    let mut file = File {
        premise: eight(bytes, at),
        retailer: eight(bytes, at + 8),
        since: two(bytes, at + 16),
        count: bytes[at + 18] as usize,
        window: bytes[at + 19],
        agreement: eight(bytes, at + 20),
        entered: bytes[at + 28],
        ..premise_file::blank_file()
    };
    for (place, order) in file.orders.iter_mut().enumerate() {
        *order = order_from(bytes, at + HEAD_BYTES + place * ORDER_BYTES);
    }
    file
}

// The four totals, from their 8 bytes.
fn waiting_from(bytes: &[u8], at: usize) -> Waiting
    requires { at + 8 ≤ length bytes.now }
{
    Waiting {
        review: two(bytes, at),
        permit: two(bytes, at + 2),
        scheduled: two(bytes, at + 4),
        cancel: two(bytes, at + 6),
    }
}

// A book, from its 14,667 bytes: T, the number of files, the four totals, the files.
pub fn book_from(bytes: &[u8; BOOK_BYTES]) -> Book {
    let mut book = Book {
        count: bytes[2] as usize,
        waiting: waiting_from(bytes, 3),
        ..book_files::empty(two(bytes, 0))
    };
    for (place, file) in book.files.iter_mut().enumerate() {
        *file = file_from(bytes, BOOK_HEAD_BYTES + place * FILE_BYTES);
    }
    book
}
