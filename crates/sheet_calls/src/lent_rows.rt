// The rows are lent as a slice, and filled in place.
ghost use Rattle.sheet_rules.specs.Sheet.{Fills};

use book::Book;
use sheet_rules::{BlockRow, SheetRefusal};

// Fills in each row's two counts and leaves its other fields; with a book that is not well kept or with an unsound row it leaves every row.
pub fn fill_sheet(b: Book, rows: &mut [BlockRow]) -> Result<(), SheetRefusal>
    ensures { Fills b rows.old result rows.new }
{
    crate::answers::judge(&b, rows)?;
    for row in rows.iter_mut() {
        let tally = crate::counts::tally(&b, row);
        row.files = tally.files;
        row.dark = tally.dark;
    }
    Ok(())
}
