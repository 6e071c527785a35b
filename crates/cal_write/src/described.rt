use cal_value::{Entry, Exact};

/// A node of a built-in attribute, by the id of its parent, if that isn't the root.
#[derive(Debug, Drop, PartialEq, Eq, Hash)]
pub(crate) struct DescribedNode {
    pub(crate) parent: Option<u32>,
    pub(crate) entry: Entry,
}

impl Exact for DescribedNode {
    ghost use Rattle.cal_write.specs.Described.{described_tells};

    ghost tells = { described_tells };
}
