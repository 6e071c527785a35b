//! The query of a channel.
ghost use Rattle.std.specs.Prelude.{◌≡◌, true, ◌++◌, IfOk, OnOk};
ghost use Rattle.cal_profile.specs.Groups.{agg_of, aggs_of, channel_query as query_of, value_aggs};
ghost use Rattle.cal_engine.specs.Rows.{IsOfGroups};
ghost use Rattle.cal_ql.specs.Kernels.{first_of_each, result_name};
ghost use Rattle.cal_ql.specs.Once.{with_all_new, with_new};
ghost use Rattle.cal_ql.specs.Valid.{IsValidQuery};
ghost use Rattle.cal_records.specs.Kept.{AreNamed};

use cal_ql::{Agg, Format, KernelName, Query};
use cal_script::ChannelQuery;
use cal_value::{OutOfMemory, Seq, Text, TryCopy};
use std::alloc::Global;
use std::collections::BTreeSet;

/// Kernels, each result name once, and those names.
#[derive(Drop)]
pub(crate) struct Kept {
    names: BTreeSet<Text>,
    aggs: Seq<Agg>,
}

/// The query of a channel, which is valid, and whose rows are its groups'.
pub fn channel_query(alloc: Global, channel: &ChannelQuery) -> Result<Query, OutOfMemory>
    ensures query { IfOk result (λ query. query ≡ query_of channel.now) }
    ensures valid { IfOk result IsValidQuery }
    ensures groups { IfOk result IsOfGroups }
{
    let query = made_query(alloc, channel)?;
    Ok(query)
}

fn made_query(alloc: Global, channel: &ChannelQuery) -> Result<Query, OutOfMemory>
    ensures { IfOk result (λ query. query ≡ query_of channel.now) }
{
    let aggs = kept_aggs(alloc, channel.values.as_slice())?;
    let group = if channel.by_default {
        None
    } else {
        Some(channel.keys.copy(alloc)?)
    };
    Ok(Query {
        lets: Seq::new(alloc),
        select: None,
        aggs,
        conds: Seq::new(alloc),
        group,
        order: Seq::new(alloc),
        format: Format::Expand,
    })
}

fn kept_aggs(alloc: Global, values: &[Text]) -> Result<Seq<Agg>, OutOfMemory>
    ensures { IfOk result (λ aggs. aggs ≡ first_of_each (aggs_of values.now)) }
{
    let mut kept = Kept {
        names: BTreeSet::new(alloc),
        aggs: Seq::new(alloc),
    };
    kept.add(alloc, KernelName::Count, "", "count")?;
    for value in values {
        kept.add_results(alloc, value.as_str())?;
    }
    let Kept { names: _, aggs } = kept;
    Ok(aggs)
}

impl Kept {
    /// Adds the results of a value attribute.
    fn add_results(&mut self, alloc: Global, attr: &str) -> Result<(), OutOfMemory>
        requires { AreNamed self.old }
        ensures named { OnOk result (AreNamed self.new) }
        ensures added { OnOk result
            (self.new.aggs ≡ with_all_new self.old.aggs (value_aggs attr.now)) }
    {
        self.add(alloc, KernelName::Sum, attr, "sum#")?;
        self.add(alloc, KernelName::Min, attr, "min#")?;
        self.add(alloc, KernelName::Max, attr, "max#")?;
        Ok(())
    }

    /// Adds a kernel, unless one of its result name is there. `front` is what stands before the
    /// attribute in that name.
    fn add(
        &mut self,
        alloc: Global,
        kernel: KernelName,
        attr: &str,
        front: &str,
    ) -> Result<(), OutOfMemory>
        requires named { AreNamed self.old }
        requires front { front.now ++ attr.now ≡ result_name kernel attr.now }
        ensures named { OnOk result (AreNamed self.new) }
        ensures added { OnOk result
            (self.new.aggs ≡ with_new self.old.aggs (agg_of kernel attr.now)) }
    {
        let mut name = Text::from_str(alloc, front)?;
        name.push_str(attr)?;
        if self.names.insert(name.copy(alloc)?)? {
            self.aggs.push(Agg {
                kernel,
                attr: Text::from_str(alloc, attr)?,
                name,
            })?;
        }
        Ok(())
    }
}
