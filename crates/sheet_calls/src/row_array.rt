// The rows by value.
ghost use Rattle.sheet_rules.specs.Sheet.{Fills};

use book::Book;
use sheet_rules::{BlockRow, SheetRefusal};

// What a call gives back: its answer, and the rows afterwards, with a refusal too: then they are as they were.
#[derive(Clone, Copy)]
pub struct SheetAfter {
    pub answer: Result<(), SheetRefusal>,
    pub rows: [BlockRow; 64],
}

// A sheet of 64 rows by value, over the lent one.
pub fn filled_sheet(b: Book, given: [BlockRow; 64]) -> SheetAfter
    ensures { Fills b given result.answer result.rows }
{
    let mut rows = given;
    let answer = crate::lent_rows::fill_sheet(b, &mut rows);
    SheetAfter { answer, rows }
}
