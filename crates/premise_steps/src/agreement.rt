// An agreement (kind 12) on a file: row 18, and what it does to the file. It runs no evaluation.
ghost use Rattle.std.specs.Prelude.{◌≡◌};
ghost use Rattle.std.specs.Prelude.{Some};
ghost use Rattle.records.specs.Records.{kind_agreement};
ghost use Rattle.premise.specs.OnePremise.{given_on};
ghost use Rattle.premise_steps.specs.Answered.{Answered, OnFile};

use premise::{Answer, File, Refusal};
use premise_notices::Outbox;
use records::Record;

// Kind 12 on a file: row 18, then acceptance. (Calendar and today are for the contract alone, which goes by them for every kind.)
pub fn on_agreement(
    calendar: &[u8],
    today: u16,
    file: &mut File,
    r: Record,
    out: &mut Outbox,
) -> Answer
    requires on_file { OnFile calendar.now today file.old r out.old }
    requires is_agreement { r.kind ≡ kind_agreement }
    ensures { Answered (given_on calendar.now today (Some file.old) r) result file.new out.old out.new }
{
    if premise_rows::deletes_another(file.agreement, r) {
        return Err(Refusal::OtherAgreement);
    }
    premise_effects::agree(file, r, out);
    Ok(())
}
