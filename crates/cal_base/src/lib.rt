//! Sources and sinks of bytes, which count their faults; reading one to its end; clocks and gates.
//!
//! The layers above use that `read_all` gives exactly the bytes that were left, that a fault is
//! answered only where a count of faults rose, and that a clock's list of readings grows by its
//! answer. Over std's readers, writers and clocks nothing is promised beyond what std's own
//! contracts say.
#![tactic(auto)]

mod calls;
mod clock;
mod failed;
mod gate;
mod mem_clock;
mod mem_sink;
mod mem_source;
mod reading;
mod sink;
mod source;
mod std_clock;
mod std_sink;
mod std_source;
mod within;

pub use clock::Clock;
pub use failed::Failed;
pub use gate::{Gate, OpenGate};
pub use mem_clock::MemClock;
pub use mem_sink::MemSink;
pub use mem_source::MemSource;
pub use reading::{ReadEnd, read_all};
pub use sink::Sink;
pub use source::Source;
pub use std_clock::StdClock;
pub use std_sink::StdSink;
pub use std_source::StdSource;
pub use within::read_within;
