// A record on its premise's file.
ghost use Rattle.std.specs.Prelude.{Some};
ghost use Rattle.premise.specs.Promises.{StaysHeld};
ghost use Rattle.premise.specs.OnePremise.{given_on};
ghost use Rattle.premise_steps.specs.Answered.{Answered, OnFile};

use premise::{Answer, File};
use premise_notices::Outbox;
use records::{Record, record_kind};

// A record that leaves its premise's file, on that file: those that name an order (kinds 4 to 9 and 11), agreement, and new order. Row 18,
// and rows 8 to 14, with 26 between 11 and 12 and 16 and 17 after 14, in their order, then what its kind does. A refusal leaves the file
// and the outbox as they were.
pub fn on_file(calendar: &[u8], today: u16, file: &mut File, r: Record, out: &mut Outbox) -> Answer
    requires on_file { OnFile calendar.now today file.old r out.old }
    requires stays_held { StaysHeld r }
    ensures { Answered (given_on calendar.now today (Some file.old) r) result file.new out.old out.new }
{
    match r.kind {
        record_kind::SCHEDULED..=record_kind::REPLY | record_kind::DATE_CHANGE =>
            crate::named::on_named(calendar, today, file, r, out),
        record_kind::AGREEMENT => crate::agreement::on_agreement(calendar, today, file, r, out),
        _ => crate::new_order::on_new_order(calendar, today, file, r, out),
    }
}
