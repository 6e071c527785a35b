//! The records of a channel's groups.
ghost use Rattle.std.specs.Prelude.{◌≡◌, map, IfOk};
ghost use Rattle.cal_engine.specs.Sorting.{sorted};
ghost use Rattle.cal_profile.specs.Groups.{channel_query as query_of, group_in, group_records};
ghost use Rattle.cal_profile.specs.Groups.{is_result, rows_cmp};
ghost use Rattle.cal_steps.specs.Grouping.{beside};

use cal_engine::answer;
use cal_ql::{Agg, Query};
use cal_records::channel_query;
use cal_rowset::Rowset;
use cal_script::ChannelQuery;
use cal_value::{Entry, OutOfMemory, Rec, Records, Seq, TryCopy};
use std::alloc::Global;

/// A row beside its group.
#[derive(Drop)]
pub(crate) struct Grouped {
    group: Rec,
    row: Rec,
}

/// The records of the groups of a channel's snapshots, in the order of groups.
pub(crate) fn group_records(
    alloc: Global,
    channel: &ChannelQuery,
    taken: Seq<Rec>,
) -> Result<Seq<Rec>, OutOfMemory>
    ensures { IfOk result (λ rows. rows ≡ group_records (query_of channel.now) taken) }
{
    let query = channel_query(alloc, channel)?;
    let globals = Rec {
        paths: Seq::new(alloc),
        imms: Seq::new(alloc),
    };
    let records = Records {
        rows: taken,
        globals,
    };
    let Rowset {
        rows: found,
        columns: _,
        all: _,
    } = answer(alloc, &query, &records)?;
    let Records { rows, globals: _ } = found;
    let sorted = sorted_by_group(alloc, query.aggs.as_slice(), rows)?;
    Ok(sorted)
}

/// Rows in the order of their groups.
fn sorted_by_group(alloc: Global, aggs: &[Agg], rows: Seq<Rec>) -> Result<Seq<Rec>, OutOfMemory>
    ensures { IfOk result (λ ordered. ordered ≡ sorted (rows_cmp aggs.now) rows) }
{
    let mut grouped = grouped_rows(alloc, aggs, rows)?;
    grouped.sort_by(|one, other| one.group.cmp(&other.group))?;
    rows_of(alloc, grouped)
}

/// Each row beside its group.
fn grouped_rows(alloc: Global, aggs: &[Agg], rows: Seq<Rec>) -> Result<Vec<Grouped>, OutOfMemory>
    ensures { IfOk result (λ grouped. grouped.items ≡ map (beside aggs.now) rows) }
{
    let mut grouped = Vec::with_capacity(alloc, rows.len())?;
    for row in rows.into_vec() {
        let group = group_of(alloc, aggs, &row)?;
        grouped.push(Grouped { group, row })?;
    }
    Ok(grouped)
}

/// The rows again.
fn rows_of(alloc: Global, grouped: Vec<Grouped>) -> Result<Seq<Rec>, OutOfMemory>
    ensures { IfOk result (λ rows. rows ≡ map (λ r. r.row) grouped.items) }
{
    let mut rows = Vec::with_capacity(alloc, grouped.len())?;
    for Grouped { group: _, row } in grouped {
        rows.push(row)?;
    }
    Ok(Seq::from_vec(rows))
}

/// The group of a row: the row without its results.
fn group_of(alloc: Global, aggs: &[Agg], row: &Rec) -> Result<Rec, OutOfMemory>
    ensures { IfOk result (λ group. group ≡ group_in aggs.now row.now) }
{
    let mut imms = Seq::new(alloc);
    for entry in row.imms.as_slice() {
        if !is_result(aggs, entry) {
            imms.push(entry.copy(alloc)?)?;
        }
    }
    let paths = row.paths.copy(alloc)?;
    Ok(Rec { paths, imms })
}

/// Whether an entry has the name of a result.
fn is_result(aggs: &[Agg], entry: &Entry) -> bool
    ensures { result ≡ is_result aggs.now entry.now }
{
    aggs.iter()
        .any(|agg| agg.name.as_str() == entry.attr.name.as_str())
}
