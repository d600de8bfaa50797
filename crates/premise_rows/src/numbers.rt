// The number that the table of refusals gives each answer, for whoever prints or stores one.
ghost use Rattle.std.specs.Prelude.{◌≡◌, Err};
ghost use Rattle.premise.specs.Refusals.{number};

use premise::{Answer, Refusal};

// The number of the row that refuses.
#[tactic(auto, unfolding(premise::specs::Refusals::number))]
fn row_of(refusal: Refusal) -> u8
    ensures { result ≡ number (Err refusal) }
{
    match refusal {
        Refusal::ShortBuffer => 1,
        Refusal::NotWellKept => 2,
        Refusal::MalformedRecord => 3,
        Refusal::NoSuchPremise => 4,
        Refusal::OtherAgreement => 18,
        Refusal::PremiseHeld => 5,
        Refusal::BookFull => 6,
        Refusal::OrderOpen => 7,
        Refusal::ReferenceHeld => 8,
        Refusal::DayOutOfRange => 9,
        Refusal::NoSwitchDate => 10,
        Refusal::NotFirstIn => 11,
        Refusal::RetailerShareFull => 26,
        Refusal::StackFull => 12,
        Refusal::NoSuchOrder => 13,
        Refusal::StatusNotTaken => 14,
        Refusal::CounterNotAbove => 16,
        Refusal::OrderInWindow => 17,
        Refusal::NotNextDay => 15,
    }
}

// The number of an answer.
#[tactic(auto, unfolding(premise::specs::Refusals::number))]
pub fn number_of(answer: Answer) -> u8
    ensures { result ≡ number answer }
{
    match answer {
        Ok(()) => 0,
        Err(refusal) => row_of(refusal),
    }
}
