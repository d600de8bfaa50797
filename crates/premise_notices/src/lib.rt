// Notices on orders and agreements: made, sent behind those that stand in the buffer, and an order's cancellation with its notices.
#![tactic(auto)]

mod cancelling;
mod notices;
mod outbox;

pub use cancelling::as_cancelled;
pub use notices::{NoticeCode, notice_of_no_order, notice_on};
pub use outbox::Outbox;
