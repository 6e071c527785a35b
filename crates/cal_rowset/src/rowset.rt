use cal_value::{OutOfMemory, Records, Seq, Text, TryCopy};
use std::alloc::Global;

/// A column of an answer: what stands above it, and whose entries its cells show. The name `path`
/// is the hierarchy of a row.
#[derive(Debug, Drop)]
pub struct Column {
    pub header: Text,
    pub name: Text,
}

/// The answer of a query. Layouts show its rows; its globals are none of theirs.
#[derive(Debug, Drop)]
pub struct Rowset {
    pub rows: Records,
    pub columns: Seq<Column>,
    /// The query had no list of columns, so that the plain lines show each row's own names.
    pub all: bool,
}

impl TryCopy for Column {
    fn copy(&self, alloc: Global) -> Result<Self, OutOfMemory> {
        Ok(Column {
            header: self.header.copy(alloc)?,
            name: self.name.copy(alloc)?,
        })
    }
}
