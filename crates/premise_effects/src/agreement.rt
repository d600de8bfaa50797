// What an agreement (kind 12) does to its file, with its notices: document 02, change 3.
ghost use Rattle.premise.specs.Steps.{agreed};
ghost use Rattle.premise_notices.specs.Outboxes.{RoomIn, Sends, DoneToFile};
ghost use Rattle.premise_effects.specs.Agreements.{to_earlier_holder};

use premise::File;
use premise_notices::{NoticeCode, Outbox, notice_of_no_order};
use records::Record;

// Where an agreement is with another retailer than the one that is named, that retailer hears of it.
fn tell_earlier_holder(premise: u64, agreement: u64, named: u64, out: &mut Outbox)
    requires { RoomIn out.old (to_earlier_holder premise agreement named) }
    ensures { Sends out.old out.new (to_earlier_holder premise agreement named) }
{
    if (agreement != premise::NOBODY) & (agreement != named) {
        out.send(notice_of_no_order(NoticeCode::AgreementRequest as u8, premise, agreement));
    }
}

// An agreement is deleted, or established with the retailer that is named, which hears of it; before it, of a new one, an earlier holder.
pub fn agree(file: &mut File, r: Record, out: &mut Outbox)
    requires { RoomIn out.old (agreed file.old r).notices }
    ensures { DoneToFile (agreed file.old r) file.new out.old out.new }
{
    let response = notice_of_no_order(
        NoticeCode::AgreementResponse as u8,
        file.premise,
        r.retailer,
    );
    if r.detail == records::DELETE {
        file.agreement = premise::NOBODY;
        out.send(response);
    } else {
        tell_earlier_holder(file.premise, file.agreement, r.retailer, out);
        file.agreement = r.retailer;
        out.send(response);
    }
}
