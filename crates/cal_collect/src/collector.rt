//! The collector.
ghost use Rattle.std.specs.Prelude.{◌≡◌, ◌%◌, ◌^◌, length};
ghost use Rattle.cal_mail.specs.Ends.{received_by};

use crate::{Part, PartLaw, Shapes};
use cal_mail::Collector;
use cal_table::Table;

/// Who merges the parts that come, each into its channel's table. Contracts see the parts that came
/// and the tables.
#[derive(Drop)]
pub struct PartCollector<'a, Q, S: Shapes> {
    pub(crate) wait: &'a Q,
    pub(crate) collector: Collector<'a, Q, Part, PartLaw<S>>,
    pub(crate) tables: Vec<Table>,
    pub(crate) count: u64,
    ghost counted: { count ≡ length (received_by collector) % 2 ^ 64 },
}
