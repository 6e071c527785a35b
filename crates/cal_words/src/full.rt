/// Why a shared tree made no child of a node. Nothing was published.
#[derive(Clone, Copy, Debug, PartialEq, Eq)]
pub enum TreeFull {
    /// Each slot holds another node.
    RowsFull,
    /// An empty slot was found, and the seat's arena has no room: it has so many words in use, and
    /// the node needs so many.
    ArenaFull { used: u64, need: u64 },
    /// The parent has depth 128.
    TooDeep,
}
