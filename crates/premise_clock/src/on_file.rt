// The clock on a file's orders, oldest first.
ghost use Rattle.premise.specs.Orders.{held};
ghost use Rattle.premise.specs.Passes.{on_file};
ghost use Rattle.premise.specs.Clock.{clock};
ghost use Rattle.premise.specs.WellKept.{Tidy};
ghost use Rattle.premise_notices.specs.Outboxes.{RoomIn, DoneToFile};

use premise::File;
use premise_notices::Outbox;

// The clock on a file. An order that it leaves is not stored again: on most marks few are changed.
pub fn wind(calendar: &[u8], today: u16, file: &mut File, out: &mut Outbox)
    requires tidy { Tidy file.old }
    requires room { RoomIn out.old (on_file file.old (clock calendar.now today file.old.premise (held file.old))).notices }
    ensures { DoneToFile (on_file file.old (clock calendar.now today file.old.premise (held file.old)))
        file.new out.old out.new }
{
    let business = days::is_business_day(calendar, today);
    let premise = file.premise;
    for i in 0..file.count {
        let o = file.orders[i];
        if crate::changes::clock_changes_order(business, today, o) {
            file.orders[i] = crate::on_order::tick(business, today, premise, o, out);
        }
    }
}
