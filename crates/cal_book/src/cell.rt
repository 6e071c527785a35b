ghost use Rattle.std.specs.Prelude.{◌≡◌, ◌≤◌};

use crate::rule::OneTable;
use crate::{Content, Merging, View};
use atomic_table::Table;
use std::alloc::Global;

/// One table that threads merge their parts into.
#[derive(Drop)]
pub struct FlushCell<T: Merging<Q> + Drop, Q> {
    pub(crate) table: Table<Content<T>, View<T, Q>, Q, OneTable, Global>,
    pub(crate) threads: u32,
    pub(crate) alloc: Global,
    ghost one_word: { table.shared.table_id.words ≡ 1 },
    ghost one_slot: { table.shared.table_id.slots ≡ 1 },
    ghost few: { threads ≤ 64 },
}
