// Searches over the days of a calendar: the first available switch date, the last day in window, and that of every width.
ghost use Rattle.std.specs.Prelude.{◌≡◌};
ghost use Rattle.days.specs.Days.{switch_date};
ghost use Rattle.days.specs.Window.{LastInWindow, LastDays};

use crate::kinds::{is_business_day, kind_of_day};
use crate::{LAST_DAY, MOST_WIDTH, NO_DAY};

// The first available switch date from today on, or NO_DAY. The search stops at the date and yields it: a loop that breaks with the date,
// as document 01 names it, and no `for`.
pub fn switch_date(calendar: &[u8], today: u16) -> u16
    ensures { result ≡ switch_date calendar.now today }
{
    let mut day = today;
    loop {
        if LAST_DAY < day {
            break NO_DAY;
        }
        if kind_of_day(calendar, day) <= 1 {
            break day;
        }
        day += 1;
    }
}

// The last day in window: the business day with which one too many would lie before the next, or the last day that there is.
pub fn last_in_window(calendar: &[u8], width: u8, today: u16) -> u16
    ensures { LastInWindow calendar.now width today result }
{
    let mut allowed = width;
    for day in today..LAST_DAY {
        if is_business_day(calendar, day) {
            if allowed == 0 {
                return day;
            }
            allowed -= 1;
        }
    }
    LAST_DAY
}

// The last days in window of the widths 1 to 5, in one walk: each goes on where the one before it ended, so that no day is looked at twice.
pub fn last_days(calendar: &[u8], today: u16) -> [u16; MOST_WIDTH]
    ensures { LastDays calendar.now today result }
{
    let one = last_in_window(calendar, 1, today);
    let two = last_in_window(calendar, 0, one + 1);
    let three = last_in_window(calendar, 0, two + 1);
    let four = last_in_window(calendar, 0, three + 1);
    let five = last_in_window(calendar, 0, four + 1);
    [one, two, three, four, five]
}
