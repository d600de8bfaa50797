// Whether a file is well kept, and whether a place of the book is unused (document 01, "The book"). Every file is answered, whatever its
// fields hold. The tests are made on every place of a book at every public call.
#![tactic(auto)]

mod counts;
mod file;
mod order;
mod unused;

pub use counts::packed;
pub use file::file_kept;
pub use unused::{file_blank, is_blank};
