//! All names that a query speaks of, found by hash.
ghost use Rattle.std.specs.Prelude.{◌≡◌, map, IfOk, OnOk};
ghost use Rattle.std.specs.List.{flat_map};
ghost use Rattle.cal_keys.specs.Keys.{names_in};
ghost use Rattle.cal_parts.specs.Readings.{reading_of};
ghost use Rattle.cal_rowset.specs.Texts.{first_seen};
ghost use Rattle.cal_engine.specs.Learning.{learned};
ghost use Rattle.cal_engine.specs.Looked.{let_names, spoken_names as spoken_names_so};

use crate::columns::learn;
use cal_parts::{Reading, readings_of};
use cal_ql::{Agg, Cond, Let, Query};
use cal_seeds::Seeds;
use cal_value::{OutOfMemory, Seq, Text};
use indexmap::IndexSet;
use std::alloc::Global;

/// All names that a query speaks of, each once: those of LET, WHERE and GROUP BY, and those by
/// which kernels read. They hash by these seeds.
#[tactic(auto, using(crate::proofs::Speaking::learned_spoken))]
pub(crate) fn spoken_names(
    alloc: Global,
    seeds: Seeds,
    query: &Query,
) -> Result<IndexSet<Text, Seeds>, OutOfMemory>
    ensures { IfOk result (λ names. names.keys ≡ first_seen (spoken_names_so query.now)) }
{
    let mut names = IndexSet::with_hasher(alloc, seeds);
    learn_lets(alloc, &mut names, query.lets.as_slice())?;
    learn_conds(alloc, &mut names, query.conds.as_slice())?;
    learn_group(alloc, &mut names, &query.group)?;
    learn_kernels(alloc, &mut names, query.aggs.as_slice())?;
    Ok(names)
}

fn learn_lets(
    alloc: Global,
    names: &mut IndexSet<Text, Seeds>,
    lets: &[Let],
) -> Result<(), OutOfMemory>
    ensures { OnOk result
        (names.new.keys ≡ learned names.old.keys (flat_map let_names lets.now)) }
{
    for definition in lets {
        learn_let(alloc, names, definition)?;
    }
    Ok(())
}

fn learn_let(
    alloc: Global,
    names: &mut IndexSet<Text, Seeds>,
    definition: &Let,
) -> Result<(), OutOfMemory>
    ensures { OnOk result (names.new.keys ≡ learned names.old.keys (let_names definition.now)) }
{
    learn(alloc, names, &definition.name)?;
    learn_all(alloc, names, definition.args.as_slice())
}

fn learn_conds(
    alloc: Global,
    names: &mut IndexSet<Text, Seeds>,
    conds: &[Cond],
) -> Result<(), OutOfMemory>
    ensures { OnOk result
        (names.new.keys ≡ learned names.old.keys (map (λ c. c.name) conds.now)) }
{
    for cond in conds {
        learn(alloc, names, &cond.name)?;
    }
    Ok(())
}

fn learn_group(
    alloc: Global,
    names: &mut IndexSet<Text, Seeds>,
    group: &Option<Seq<Text>>,
) -> Result<(), OutOfMemory>
    ensures { OnOk result (names.new.keys ≡ learned names.old.keys (names_in group.now)) }
{
    match group {
        Some(group) => learn_all(alloc, names, group.as_slice()),
        None => Ok(()),
    }
}

/// Learns the names by which kernels read, that of a record's weight aside.
fn learn_kernels(
    alloc: Global,
    names: &mut IndexSet<Text, Seeds>,
    aggs: &[Agg],
) -> Result<(), OutOfMemory>
    ensures { OnOk result (names.new.keys
        ≡ learned names.old.keys (flat_map (λ r. r.names) (map reading_of aggs.now))) }
{
    let readings = readings_of(alloc, aggs)?;
    learn_readings(alloc, names, &readings)
}

fn learn_readings(
    alloc: Global,
    names: &mut IndexSet<Text, Seeds>,
    readings: &[Reading],
) -> Result<(), OutOfMemory>
    ensures { OnOk result
        (names.new.keys ≡ learned names.old.keys (flat_map (λ r. r.names) readings.now)) }
{
    for reading in readings {
        learn_all(alloc, names, reading.names.as_slice())?;
    }
    Ok(())
}

fn learn_all(
    alloc: Global,
    names: &mut IndexSet<Text, Seeds>,
    more: &[Text],
) -> Result<(), OutOfMemory>
    ensures { OnOk result (names.new.keys ≡ learned names.old.keys more.now) }
{
    for name in more {
        learn(alloc, names, name)?;
    }
    Ok(())
}
