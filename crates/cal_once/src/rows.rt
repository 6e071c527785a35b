ghost use Rattle.std.specs.Prelude.{◌≡◌};
ghost use Rattle.cal_once.specs.Layout.{IsShape, word_count};

use crate::rule::WriteOnce;
use crate::{Plan, View};
use atomic_table::Table;
use cal_words::RecSort;
use std::alloc::Global;

/// A table of records, each of which stands at its place for good.
#[derive(Drop)]
pub struct Rows<S: RecSort> {
    pub(crate) table: Table<u8, View<S>, Plan<S>, WriteOnce, Global>,
    pub(crate) plan: Plan<S>,
    ghost plan_is: { plan ≡ table.shared.key },
    ghost long: { table.shared.table_id.words ≡ word_count table.shared.key.shape },
    ghost shaped: { IsShape plan.shape },
}
