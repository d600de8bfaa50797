// The days layer. Its numbers; its rules stand in specs/, from document 01's section "Days". A calendar is lent bytes, one per day; each
// function answers for every calendar and every day number.
#![tactic(auto)]

mod kinds;
mod searches;

pub use kinds::is_business_day;
pub use searches::{last_days, last_in_window, switch_date};

// The last day that there is.
pub const LAST_DAY: u16 = 4095;

// "No day": what stands for a scheduled day or a switch date that is missing. It is no Option: an order's field and a notice's day hold
// this very number, and so does the definition no_day.
pub const NO_DAY: u16 = 4096;

// Two business days: the width of the window.
pub const WINDOW_WIDTH: u8 = 2;

// A window is 1 to 5 business days wide.
pub const MOST_WIDTH: usize = 5;
