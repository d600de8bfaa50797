// A new order (kind 3) on a file: which row refuses it, what it does to the file, and the evaluation that ends it.
ghost use Rattle.std.specs.Prelude.{◌≡◌};
ghost use Rattle.std.specs.Prelude.{Some};
ghost use Rattle.records.specs.Records.{kind_new_order};
ghost use Rattle.premise.specs.Steps.{ordered};
ghost use Rattle.premise.specs.OnePremise.{followed, given_on};
ghost use Rattle.premise.specs.Evaluation.{evaluated};
ghost use Rattle.premise_notices.specs.Codes.{code_number};
ghost use Rattle.premise_notices.specs.Outboxes.{DoneToFile};
ghost use Rattle.premise_steps.specs.NewOrderCode.{code_for};
ghost use Rattle.premise_steps.specs.Accepting.{WithPlace};
ghost use Rattle.premise_steps.specs.Answered.{Answered, OnFile};

use premise::{Answer, File};
use premise_notices::{NoticeCode, Outbox};
use records::Record;

// The code of a new order's notice.
fn code_for(kind: u8) -> NoticeCode
    ensures { code_number result ≡ code_for kind }
{
    if kind == records::order_kind::MOVE_OUT {
        NoticeCode::MoveOut
    } else {
        NoticeCode::Order
    }
}

// An accepted new order: it joins the file, the TDSP is told, and the file is evaluated.
fn accept_order(
    calendar: &[u8],
    today: u16,
    file: &mut File,
    r: Record,
    requested: u16,
    out: &mut Outbox,
)
    requires { WithPlace calendar.now today file.old r requested out.old }
    ensures { DoneToFile (followed (ordered calendar.now today file.old r) (evaluated calendar.now today))
        file.new out.old out.new }
{
    let last = days::last_in_window(calendar, file.window, today);
    let o = premise_rows::new_order(calendar, today, r, requested);
    premise_file::admit(file, o);
    out.tell(code_for(r.detail), file.premise, records::TDSP, o);
    premise_evaluation::evaluate(calendar, today, last, file, out);
}

// Kind 3 on a file: rows 8 to 11, 26 and 12, then acceptance.
pub fn on_new_order(
    calendar: &[u8],
    today: u16,
    file: &mut File,
    r: Record,
    out: &mut Outbox,
) -> Answer
    requires on_file { OnFile calendar.now today file.old r out.old }
    requires is_new_order { r.kind ≡ kind_new_order }
    ensures { Answered (given_on calendar.now today (Some file.old) r) result file.new out.old out.new }
{
    let requested = premise_rows::requested_day(calendar, today, r);
    premise_rows::new_order_answer(today, file, r, requested)?;
    accept_order(calendar, today, file, r, requested, out);
    Ok(())
}
