// The business days that an order has waited for an answer or a permit: whether a day counts, and whether they end a review.
ghost use Rattle.std.specs.Prelude.{◌≡◌, cond, ◌&&◌, ◌+◌, min, leb};
ghost use Rattle.premise.specs.Clock.{most_waited};
ghost use Rattle.premise.specs.Clock.{review_ends};

use premise::{BusinessDays, MOST_WAITED};

pub const LONG_REVIEW: u8 = 20;

const SHORT_REVIEW: u8 = 3;

// One business day more where it counts, never above 21.
pub fn grow(waited: BusinessDays, counts: bool) -> BusinessDays
    ensures { result.0 ≡ cond counts (min (waited.0 + 1) most_waited) waited.0 }
{
    if !counts {
        waited
    } else if waited.0 < MOST_WAITED {
        BusinessDays(waited.0 + 1)
    } else {
        BusinessDays(MOST_WAITED)
    }
}

// Whether a review ends: after 20 business days, or after 3 once the requested day has come.
pub fn review_ends(waited: BusinessDays, requested: u16, today: u16) -> bool
    ensures { result ≡ review_ends waited.0 requested today }
{
    LONG_REVIEW <= waited.0 || (SHORT_REVIEW <= waited.0 && requested <= today)
}

// Whether a business day counts towards the wait for a permit: not before the requested day.
pub fn counts(business: bool, requested: u16, today: u16) -> bool
    ensures { result ≡ (business && leb requested today) }
{
    business && requested <= today
}
