// Of which kind a day is.
ghost use Rattle.std.specs.Prelude.{◌≡◌};
ghost use Rattle.days.specs.Days.{kind_of_day, is_business_day};

// The kind of a day: its byte where it lies in the calendar and the byte is 0 or 1, else 2.
#[tactic(auto, using(crate::proofs::Laws::kind_known, crate::proofs::Laws::kind_unknown, crate::proofs::Laws::kind_outside))]
pub fn kind_of_day(calendar: &[u8], day: u16) -> u8
    ensures { result ≡ kind_of_day calendar.now day }
{
    match calendar.get(day as usize) {
        Some(&byte) if byte <= 1 => byte,
        _ => 2,
    }
}

// Whether a day is a Retail Business Day.
#[tactic(auto, unfolding(crate::specs::Days::is_business_day))]
pub fn is_business_day(calendar: &[u8], day: u16) -> bool
    ensures { result ≡ is_business_day calendar.now day }
{
    kind_of_day(calendar, day) == 0
}
