//! The keys of objects, and which of them each column has.
ghost use Rattle.std.specs.Prelude.{◌≡◌, ℕ, ◌<◌, true, length, slice_index_or, IfOk};
ghost use Rattle.std.specs.BTreeSet.{contains};
ghost use Rattle.std.specs.List.{Contains};
ghost use Rattle.cal_rowset.specs.Showing.{nth_column};
ghost use Rattle.cal_value.specs.Texts.{text_cmp};
ghost use Rattle.cal_jsonfmt.specs.Choosing.{AreKeysOf, ArePlacesOf, Ascend};

use cal_rowset::Column;
use cal_value::{OutOfMemory, Text, TryCopy};
use std::alloc::Global;
use std::collections::BTreeSet;

/// The keys of objects: the headers of columns, each once, in the order of their bytes.
#[derive(Drop)]
pub(crate) struct Keys {
    pub(crate) names: Vec<Text>,
    // of each column the place of its header
    pub(crate) places: Vec<usize>,
}

impl Keys {
    pub(crate) fn new(alloc: Global, columns: &[Column]) -> Result<Self, OutOfMemory>
        ensures { IfOk result (λ keys. AreKeysOf keys columns.now) }
    {
        let names = listed(alloc, headers(alloc, columns)?)?;
        let places = places(alloc, columns, &names)?;
        Ok(Keys { names, places })
    }

    /// The place of a column's header.
    pub(crate) fn place(&self, column: usize) -> usize
        requires { column < length self.now.places.items }
        ensures { result ≡ slice_index_or self.now.places.items column 0 }
    {
        self.places[column]
    }
}

/// The headers of columns, each once.
fn headers(alloc: Global, columns: &[Column]) -> Result<BTreeSet<Text>, OutOfMemory>
    ensures { IfOk result (λ names. (k : ℕ) → k < length columns.now
        → contains text_cmp names (nth_column columns.now k).header ≡ true) }
{
    let mut names = BTreeSet::new(alloc);
    for column in columns {
        names.insert(column.header.copy(alloc)?)?;
    }
    Ok(names)
}

/// The texts of a set, in their order.
fn listed(alloc: Global, set: BTreeSet<Text>) -> Result<Vec<Text>, OutOfMemory>
    ensures same { IfOk result (λ names. names.items ≡ set.keys) }
    ensures ascend { IfOk result (λ names. Ascend names.items) }
{
    let mut names = Vec::with_capacity(alloc, set.len())?;
    for name in set {
        names.push(name)?;
    }
    Ok(names)
}

/// Of each column the place of its header among these.
fn places(alloc: Global, columns: &[Column], names: &[Text]) -> Result<Vec<usize>, OutOfMemory>
    requires ascend { Ascend names.now }
    requires headers { (k : ℕ) → k < length columns.now
        → Contains names.now (nth_column columns.now k).header }
    ensures { IfOk result (λ places. ArePlacesOf names.now columns.now places.items) }
{
    let mut places = Vec::with_capacity(alloc, columns.len())?;
    for column in columns {
        places.push(names.binary_search(&column.header).unwrap())?;
    }
    Ok(places)
}
