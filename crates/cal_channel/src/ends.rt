/// Where a snapshot of a trace ends, in the list of nodes and in that of entries.
#[derive(Clone, Copy, Debug, PartialEq, Eq)]
pub(crate) struct TraceEnd {
    pub nodes: usize,
    pub entries: usize,
}
