//! What one channel of a running thread keeps, and what a line adds to it.
//!
//! A channel has the reading of its snapshot before, its trace and its table. The layer above uses
//! that a line's snapshot is added to both, and means what the plain meaning of a run takes there
//! (`take`); and that a part of the table stands for exactly what was taken since the part before
//! (`part`). A snapshot is kept by numbers: no name and no text of the script is copied for a
//! trace. Nothing is promised of a channel that ran out of memory.
#![tactic(auto)]

mod channel;
mod closing;
mod draft;
mod ends;
mod laws;
mod packed;
mod shown;
mod small_numbers;
mod trace;

pub use channel::ThreadChannel;
pub use closing::{ClosedNode, ClosedNodes, closed};
pub use draft::SnapDraft;
pub use laws::{
    numbers_of_snapshots, parts_of_channels, room_for_snapshots, taken_at_start, taken_for_good,
};
pub use packed::EntrySlice;
pub use shown::{ShownEntry, ShownValue};
pub use small_numbers::{said_values_law, small_numbers_law};
pub use trace::{Trace, TraceSnap};
