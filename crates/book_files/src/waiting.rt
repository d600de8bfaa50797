// The four totals of waiting orders: of no file, and moved from a file to the one that is stored in its place.
ghost use Rattle.std.specs.Prelude.{◌≡◌, [], ◌≤◌, ◌<◌};
ghost use Rattle.premise.specs.WellKept.{Tidy};
ghost use Rattle.book.specs.Totals.{waiting_in, moved, Counts};
ghost use Rattle.book_files.specs.Turned.{one_if, turned_total, turned, Turns};

use book::Waiting;
use premise::File;

// No order waits.
pub fn nothing() -> Waiting
    ensures { result ≡ waiting_in [] }
{
    Waiting {
        review: 0,
        permit: 0,
        scheduled: 0,
        cancel: 0,
    }
}

// A total after an order has turned from one status into another.
fn turned_total(total: u16, status: u8, left: u8, came: u8) -> u16
    requires { (one_if status left ≤ total) × (total < 65535) × (left ≡ came → ⊥) }
    ensures { result ≡ turned_total status left came total }
{
    if came == status {
        return total + 1;
    }
    if left == status {
        return total - 1;
    }
    total
}

// The four after that.
fn turned(w: Waiting, left: u8, came: u8) -> Waiting
    requires { Turns left came w }
    ensures { result ≡ turned left came w }
{
    let review = turned_total(w.review, premise::IN_REVIEW, left, came);
    let permit = turned_total(w.permit, premise::PERMIT_PENDING, left, came);
    let scheduled = turned_total(w.scheduled, premise::SCHEDULED, left, came);
    let cancel = turned_total(w.cancel, premise::CANCEL_PENDING, left, came);
    Waiting {
        review,
        permit,
        scheduled,
        cancel,
    }
}

// The totals after a file has been stored in the place of another. One walk over the eight places, of which only those are counted whose
// status differs: an unused place has status 0, which no total counts, and orders that are dropped or come last only shift the others.
pub fn moved(w: Waiting, old: &File, stored: &File) -> Waiting
    requires { Tidy old.now × Tidy stored.now × Counts w old.now }
    ensures { result ≡ moved w old.now stored.now }
{
    let mut totals = w;
    for (left, came) in old.orders.iter().zip(&stored.orders) {
        if left.status != came.status {
            totals = turned(totals, left.status, came.status);
        }
    }
    totals
}
