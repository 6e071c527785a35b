ghost use Rattle.std.specs.Prelude.{◌≡◌, ◌++◌, IfOk, OnOk};
ghost use Rattle.cal_ql.specs.Kernels.{first_of_each};
ghost use Rattle.cal_ql.specs.Once.{IsKept, with_all_new, with_new};

use crate::query::Agg;
use cal_value::{OutOfMemory, Seq, Text, TryCopy};
use std::alloc::Global;
use std::collections::BTreeSet;

/// Kernels, each result name once, and those names.
#[derive(Drop)]
struct Kept {
    names: BTreeSet<Text>,
    aggs: Seq<Agg>,
}

impl Kept {
    /// Adds a kernel, unless one of its result name is there.
    fn add(&mut self, alloc: Global, agg: Agg) -> Result<(), OutOfMemory>
        requires { IsKept self.old }
        ensures kept { OnOk result (IsKept self.new) }
        ensures added { OnOk result (self.new.aggs ≡ with_new self.old.aggs agg) }
    {
        if self.names.insert(agg.name.copy(alloc)?)? {
            self.aggs.push(agg)?;
        }
        Ok(())
    }

    fn add_all(&mut self, alloc: Global, aggs: Seq<Agg>) -> Result<(), OutOfMemory>
        requires { IsKept self.old }
        ensures kept { OnOk result (IsKept self.new) }
        ensures added { OnOk result (self.new.aggs ≡ with_all_new self.old.aggs aggs) }
    {
        for agg in aggs.into_vec() {
            self.add(alloc, agg)?;
        }
        Ok(())
    }
}

/// Each result name once, the first kept.
pub(crate) fn first_of_each(
    alloc: Global,
    selected: Seq<Agg>,
    others: Seq<Agg>,
) -> Result<Seq<Agg>, OutOfMemory>
    ensures { IfOk result (λ aggs. aggs ≡ first_of_each (selected ++ others)) }
{
    let mut kept = Kept {
        names: BTreeSet::new(alloc),
        aggs: Seq::new(alloc),
    };
    kept.add_all(alloc, selected)?;
    kept.add_all(alloc, others)?;
    let Kept { names: _, aggs } = kept;
    Ok(aggs)
}
