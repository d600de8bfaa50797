// The two counts of a range.
ghost use Rattle.std.specs.Prelude.{◌≡◌};
ghost use Rattle.sheet_rules.specs.Sheet.{tally_of};

use book::Book;
use premise::File;
use sheet_rules::{BlockRow, Tally};

// The files of a book in a row's range, and the dark ones among them, in one walk over the places that it holds files in.
pub fn tally(b: &Book, row: &BlockRow) -> Tally
    ensures { result ≡ tally_of b.now row.now.first row.now.last }
{
    let places: &[File] = &b.files;
    let mut tally = Tally { files: 0, dark: 0 };
    for file in &places[..b.count.min(places.len())] {
        if row.first <= file.premise && file.premise <= row.last {
            tally.files += 1;
            if file.retailer == premise::NOBODY {
                tally.dark += 1;
            }
        }
    }
    tally
}
