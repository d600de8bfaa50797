// Whether a place is unused: a place of a file, a file's place in the book. Nearly always all fields are zero, so those of a place are
// tested without a branch.
ghost use Rattle.std.specs.Prelude.{◌≡◌};
ghost use Rattle.lists.specs.Search.{all_of};
ghost use Rattle.premise.specs.WellKept.{is_blank, file_blank};

use premise::{File, Order};

// Whether a place is unused: zero in every field. The narrow fields are added up: the sum is 0 exactly if each of them is, which takes one
// test and not eight (as a comparison with a blank order would).
pub fn is_blank(o: &Order) -> bool
    ensures { result ≡ is_blank o.now }
{
    let narrow = o.reference as u64
        + o.requested as u64
        + o.scheduled as u64
        + o.kind as u64
        + o.status as u64
        + o.waited.0 as u64
        + o.pending.0 as u64
        + o.told as u64;
    (o.submitter == 0) & (o.counter == 0) & (narrow == 0)
}

// Whether some places are unused.
pub fn are_blank(places: &[Order]) -> bool
    ensures { result ≡ all_of is_blank places.now }
{
    places.iter().all(is_blank)
}

// Whether an unused place of the book is zero in every field.
pub fn file_blank(file: &File) -> bool
    ensures { result ≡ file_blank file.now }
{
    let head = (file.premise == 0)
        & (file.retailer == 0)
        & (file.since == 0)
        & (file.window == 0)
        & (file.agreement == 0)
        & (file.entered == 0)
        & (file.count == 0);
    head && are_blank(&file.orders)
}
