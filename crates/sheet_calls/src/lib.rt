// The block sheet in code: the rows of blocks are lent, and filled in place; the same by value. What a call promises stands in
// `sheet_rules`.
#![tactic(auto)]

mod answers;
mod counts;
mod lent_rows;
mod row_array;

pub use answers::number_of;
pub use lent_rows::fill_sheet;
pub use row_array::{SheetAfter, filled_sheet};
