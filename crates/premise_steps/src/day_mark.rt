// The day mark on a file, and whether it changes one: most files on most marks it leaves.
ghost use Rattle.std.specs.Prelude.{◌≡◌};
ghost use Rattle.premise.specs.WellKept.{Tidy};
ghost use Rattle.premise_laws.specs.Changes.{mark_changes_file};
ghost use Rattle.premise.specs.OnePremise.{marked};
ghost use Rattle.premise_notices.specs.Outboxes.{DoneToFile};
ghost use Rattle.premise_evaluation.specs.Evaluable.{Evaluable};

use premise::File;
use premise_notices::Outbox;

// Whether a day mark changes a file: whether the clock changes one of its orders, or the evaluation does.
pub fn mark_changes_file(business: bool, today: u16, last: u16, file: &File) -> bool
    requires { Tidy file.now }
    ensures { result ≡ mark_changes_file business today last file.now }
{
    let orders = file.held();
    orders.iter().enumerate().any(|(i, o)| {
        premise_clock::clock_changes_order(business, today, *o)
            || premise_evaluation::changes_order(today, last, file.agreement, orders, i, *o)
    })
}

// The day mark on a file, by the new day: the clock, then the evaluation.
pub fn mark(calendar: &[u8], today: u16, last: u16, file: &mut File, out: &mut Outbox)
    requires { Evaluable calendar.now today last file.old (marked calendar.now today file.old).notices out.old }
    ensures { DoneToFile (marked calendar.now today file.old) file.new out.old out.new }
{
    premise_clock::wind(calendar, today, file, out);
    premise_evaluation::evaluate(calendar, today, last, file, out);
}
