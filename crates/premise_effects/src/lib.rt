// What a record that names an order (kinds 4 to 9 and 11) does: to that order, with its notices, and to who supplies the premise. What an
// agreement does to its file.
#![tactic(auto)]

mod agreement;
mod changes;
mod date_change;
mod on_order;
mod supplier;

pub use agreement::agree;
pub use changes::change_order;
pub use supplier::supply;
