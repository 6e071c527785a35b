use crate::{Ticks, ValueList};
use cal_value::{Attribute, Entry, Seq, Text};

/// What a script declares and what its threads do.
#[derive(Debug, Drop)]
pub struct Script {
    pub attributes: Seq<Attribute>,
    pub channels: Seq<Channel>,
    /// The values that lines open, in the order of the lines. A value may stand more than once.
    pub values: ValueList,
    /// The lines of each thread.
    pub threads: Seq<Seq<Line>>,
    /// What the `global` lines say, in the order of the lines.
    pub globals: Seq<Entry>,
}

/// A channel with its services.
#[derive(Debug, Drop)]
pub struct Channel {
    pub name: Text,
    /// Takes a snapshot at each event.
    pub event: bool,
    /// Measures the time between snapshots.
    pub timer: bool,
    /// Keeps each snapshot.
    pub trace: bool,
    /// Counts and sums snapshots by groups.
    pub aggregate: bool,
    /// The probes, in the order in which the channel's line names them.
    pub probes: Seq<ProbeKind>,
    /// How the snapshots are grouped and what is summed, where the channel aggregates.
    pub query: ChannelQuery,
}

/// By what a channel groups its snapshots, and what it sums.
#[derive(Debug, Drop)]
pub struct ChannelQuery {
    /// Whether the channel has no `key` line: then it groups by the list of a snapshot's paths.
    pub by_default: bool,
    /// The names of the `key` line.
    pub keys: Seq<Text>,
    /// The value attributes: the names of the `value` line. Without one it is the duration, where
    /// the channel aggregates and has the timer.
    pub values: Seq<Text>,
}

/// What a probe counts on the thread's board.
#[derive(Clone, Copy, Debug, PartialEq, Eq)]
pub enum ProbeKind {
    /// The values in the slot of the hierarchy.
    Depth,
    /// The values in all slots.
    Count,
}

/// A line of a thread. `attr` is a place in the script's attributes, `value` one in its values and
/// `channel` one in its channels, from 0.
#[derive(Clone, Copy, Debug, PartialEq, Eq)]
pub enum Line {
    Begin { attr: u32, value: u32 },
    End { attr: u32 },
    Set { attr: u32, value: u32 },
    Snapshot,
    Flush { channel: u32 },
    Tick { n: Ticks },
}
