//! Declarations of names by threads: each thread declares its own, and of each name one stands.
//!
//! The layer above uses that what comes out of `declare_all` is a naming of its input
//! (`specs/Naming.antt`): which declaration of each name is kept, and what each line was replied,
//! whatever the schedule was. Nothing is promised of when memory is there, of which of two threads
//! is first, or that threads run side by side.
#![tactic(auto)]

mod hire;
mod join;
mod keep;
mod laws;
mod naming;
mod narrow;
mod replies;
mod reply;
mod worker;

pub use laws::any_order_law;
pub use naming::declare_all;
pub use reply::{NameReply, Named};
