// A record that names an order (kinds 4 to 9 and 11) on a file: which row refuses it, what it does to that order, and the evaluation that
// ends it.
ghost use Rattle.std.specs.Prelude.{◌≡◌, true, get_or};
ghost use Rattle.std.specs.Prelude.{Some};
ghost use Rattle.premise.specs.Orders.{blank, held};
ghost use Rattle.premise.specs.Steps.{named, changed};
ghost use Rattle.premise.specs.Refusals.{names_order};
ghost use Rattle.premise.specs.OnePremise.{followed, given_on};
ghost use Rattle.premise.specs.Evaluation.{evaluated};
ghost use Rattle.premise_notices.specs.Outboxes.{DoneToFile};
ghost use Rattle.premise_steps.specs.Accepting.{AtPlace};
ghost use Rattle.premise_steps.specs.Answered.{Answered, OnFile};

use premise::{Answer, File, Refusal};
use premise_notices::Outbox;
use records::Record;

// An accepted record that names the order at a place: the order changes, and the file is evaluated.
fn accept_named(
    calendar: &[u8],
    today: u16,
    last: u16,
    file: &mut File,
    r: Record,
    i: usize,
    out: &mut Outbox,
)
    requires { AtPlace calendar.now today last file.old r i out.old }
    ensures { DoneToFile
        (followed (changed calendar.now today file.old r i (get_or (held file.old) i blank)) (evaluated calendar.now today))
        file.new out.old out.new }
{
    let o = file.orders[i];
    let t = premise_effects::change_order(calendar, today, file, r, o, out);
    premise_effects::supply(file, r, o);
    premise_file::with_order(file, i, t);
    premise_evaluation::evaluate(calendar, today, last, file, out);
}

// A record that names the order at a place of a file: rows 13, 14, 16 and 17, then acceptance.
fn on_order(
    calendar: &[u8],
    today: u16,
    file: &mut File,
    r: Record,
    i: usize,
    out: &mut Outbox,
) -> Answer
    requires on_file { OnFile calendar.now today file.old r out.old }
    requires names_an_order { names_order r ≡ true }
    requires is_at { named r (held file.old) ≡ Some i }
    ensures { Answered (given_on calendar.now today (Some file.old) r) result file.new out.old out.new }
{
    let last = days::last_in_window(calendar, file.window, today);
    premise_rows::named_answer(last, file, r, i)?;
    accept_named(calendar, today, last, file, r, i, out);
    Ok(())
}

// A record that names an order, on a file: row 13 where no order has the reference, else the order that has it.
pub fn on_named(calendar: &[u8], today: u16, file: &mut File, r: Record, out: &mut Outbox) -> Answer
    requires on_file { OnFile calendar.now today file.old r out.old }
    requires names_an_order { names_order r ≡ true }
    ensures { Answered (given_on calendar.now today (Some file.old) r) result file.new out.old out.new }
{
    let Some(i) = premise_file::find(file.held(), r.reference) else {
        return Err(Refusal::NoSuchOrder);
    };
    on_order(calendar, today, file, r, i, out)
}
