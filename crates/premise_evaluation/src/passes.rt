// A pass run over a file's orders: one loop serves all four. The evaluation of a file is the four, one after another.
ghost use Rattle.std.specs.Prelude.{ℕ};
ghost use Rattle.premise.specs.declared.Order.{Order};
ghost use Rattle.premise.specs.declared.File.{File};
ghost use Rattle.premise.specs.Orders.{held};
ghost use Rattle.premise.specs.Passes.{Change, pass, on_file};
ghost use Rattle.premise.specs.WellKept.{Tidy};
ghost use Rattle.premise.specs.Evaluation.{evaluated};
ghost use Rattle.premise_notices.specs.Outboxes.{RoomIn, DoneToOrder, DoneToFile};
ghost use Rattle.premise_evaluation.specs.Evaluable.{Evaluable};

use crate::drop_on_switch_day::DropsOnSwitchDays;
use crate::loss_notice::LossNotices;
use crate::permit_overtaken::PermitsOvertaken;
use crate::same_day_switches::SameDaySwitches;
use premise::{File, Order};
use premise_notices::Outbox;

// A pass of the evaluation. Its step says what becomes of the order at a place of a file.
pub trait Pass {
    ghost step: { Self → File → ℕ → Order → Change };

    fn change(&self, file: &File, i: usize, o: Order, out: &mut Outbox) -> Order
        requires tidy { Tidy file.now }
        requires room { RoomIn out.old (step self.now file.now i o).notices }
        ensures { DoneToOrder (step self.now file.now i o) result out.old out.new };
}

// A pass over a file's orders, oldest first. Each order is judged by the file as it was before the pass.
fn run<P: Pass>(which: &P, file: &mut File, out: &mut Outbox)
    requires tidy { Tidy file.old }
    requires room { RoomIn out.old (pass (P.step which.now file.old) (held file.old)).notices }
    ensures { DoneToFile (on_file file.old (pass (P.step which.now file.old) (held file.old))) file.new out.old out.new }
{
    let before = *file;
    for i in 0..before.count {
        file.orders[i] = which.change(&before, i, before.orders[i], out);
    }
}

// The evaluation of a file, by the last day in window, which the caller looks for once for many files: four passes, each on what the one
// before left. A file with no order that a pass would change is left alone: most files are, and are not copied for the passes.
pub fn evaluate(calendar: &[u8], today: u16, last: u16, file: &mut File, out: &mut Outbox)
    requires { Evaluable calendar.now today last file.old (evaluated calendar.now today file.old).notices out.old }
    ensures { DoneToFile (evaluated calendar.now today file.old) file.new out.old out.new }
{
    if crate::changes::changes_file(today, last, file) {
        run(&SameDaySwitches { last }, file, out);
        run(&DropsOnSwitchDays { last }, file, out);
        run(&PermitsOvertaken { today }, file, out);
        run(&LossNotices { last }, file, out);
    }
}
