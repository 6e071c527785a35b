//! The mailbox: threads send parts through a bounded channel to one that collects them. What was
//! received of each sender is what it sent, in its order, each part once (`Collector::finish`).
//! Senders wait for room, and the collector for parts; that a call returns isn't promised.
#![tactic(auto)]

mod collector;
mod ended;
mod ends;
mod finish;
mod last;
mod mail;
mod may_send;
mod open;
mod receive;
mod rule;
mod send;
mod sender;
mod view;

pub use collector::Collector;
pub use ended::Ended;
pub use mail::{Mail, Received};
pub use may_send::{AnyPart, SendLaw};
pub use open::open_mail;
pub use rule::InOrder;
pub use sender::Sender;
pub use view::View;
