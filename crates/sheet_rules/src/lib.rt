// The block sheet, which says how many flats of each block are held in the book and how many of them are dark: its types. Document 02,
// change 14. What a call fills in stands in specs/, with its theorems; the laws that the code cites and the proofs in proofs/. The code
// stands in `sheet_calls`.
#![tactic(auto)]

// A block's row: its number, its premises from the first to the last, and the two counts that a call fills in.
#[derive(Debug, Clone, Copy, PartialEq, Eq)]
pub struct BlockRow {
    pub block: u32,
    pub first: u64,
    pub last: u64,
    pub files: u32,
    pub dark: u32,
}

// The two counts: files, and those among them without a retailer.
#[derive(Debug, Clone, Copy, PartialEq, Eq)]
pub struct Tally {
    pub files: u32,
    pub dark: u32,
}

// Why a call fills in nothing, each by its number.
#[derive(Debug, Clone, Copy, PartialEq, Eq)]
pub enum SheetRefusal {
    // The book is not well kept.
    NotWellKept = 2,
    // A row has block 0, or its first premise is above its last.
    UnsoundRow = 27,
}
