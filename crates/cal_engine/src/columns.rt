ghost use Rattle.std.specs.Prelude.{◌≡◌, [], ◌∷◌, ◌++◌, codes, if◌then◌else◌, map};
ghost use Rattle.std.specs.Prelude.{IfOk, OnOk};
ghost use Rattle.std.specs.List.{flat_map, list_any};
ghost use Rattle.cal_rowset.specs.Hierarchy.{hierarchy, is_of_hierarchy as is_nested};
ghost use Rattle.cal_rowset.specs.Hierarchy.{other_entries};
ghost use Rattle.cal_engine.specs.Answers.{columns_of as columns_by, plain_column};
ghost use Rattle.cal_engine.specs.Answers.{shown_names};
ghost use Rattle.cal_keys.specs.Groups.{has_entries};
ghost use Rattle.cal_engine.specs.Learning.{learned, learned_one, names_beside};

use cal_ql::{Agg, Item, Query};
use cal_rowset::{Column, is_of_hierarchy};
use cal_seeds::Seeds;
use cal_value::{Entry, OutOfMemory, Rec, Seq, Text, TryCopy};
use indexmap::IndexSet;
use std::alloc::Global;

/// The columns of an answer with these rows.
pub(crate) fn columns_of(
    alloc: Global,
    query: &Query,
    rows: &[Rec],
) -> Result<Seq<Column>, OutOfMemory>
    ensures { IfOk result (λ columns. columns ≡ columns_by query.now query.now.select rows.now) }
{
    if let Some(items) = &query.select {
        item_columns(alloc, items.as_slice())
    } else if let Some(names) = &query.group {
        group_columns(alloc, names.as_slice(), query.aggs.as_slice())
    } else {
        shown_columns(alloc, rows)
    }
}

pub(crate) fn item_columns(alloc: Global, items: &[Item]) -> Result<Seq<Column>, OutOfMemory>
    ensures { IfOk result (λ columns. columns
        ≡ map (λ i. record { header = i.header; name = i.name }) items.now) }
{
    let mut columns = Vec::with_capacity(alloc, items.len())?;
    for item in items {
        columns.push(Column {
            header: item.header.copy(alloc)?,
            name: item.name.copy(alloc)?,
        })?;
    }
    Ok(Seq::from_vec(columns))
}

pub(crate) fn group_columns(
    alloc: Global,
    names: &[Text],
    aggs: &[Agg],
) -> Result<Seq<Column>, OutOfMemory>
    ensures { IfOk result (λ columns. columns
        ≡ map plain_column (names.now ++ map (λ agg. agg.name) aggs.now)) }
{
    let mut columns = Vec::new(alloc);
    add_columns(alloc, &mut columns, names)?;
    for agg in aggs {
        columns.push(plain(alloc, &agg.name)?)?;
    }
    Ok(Seq::from_vec(columns))
}

pub(crate) fn add_columns(
    alloc: Global,
    columns: &mut Vec<Column>,
    names: &[Text],
) -> Result<(), OutOfMemory>
    ensures { OnOk result (columns.new.items ≡ columns.old.items ++ map plain_column names.now) }
{
    for name in names {
        columns.push(plain(alloc, name)?)?;
    }
    Ok(())
}

/// The column under its own name.
fn plain(alloc: Global, name: &Text) -> Result<Column, OutOfMemory>
    ensures { IfOk result (λ column. column ≡ plain_column name.now) }
{
    Ok(Column {
        header: name.copy(alloc)?,
        name: name.copy(alloc)?,
    })
}

/// The names that rows show, as columns.
fn shown_columns(alloc: Global, rows: &[Rec]) -> Result<Seq<Column>, OutOfMemory>
    ensures { IfOk result (λ columns. columns ≡ map plain_column (shown_names rows.now)) }
{
    let names = shown(alloc, rows)?;
    let mut columns = Vec::new(alloc);
    add_columns(alloc, &mut columns, names.as_slice())?;
    Ok(Seq::from_vec(columns))
}

/// The names that rows show. They hash by numbers that everybody knows, since records alone have no
/// run.
#[tactic(auto, using(crate::proofs::Learned::learned_shown))]
fn shown(alloc: Global, rows: &[Rec]) -> Result<IndexSet<Text, Seeds>, OutOfMemory>
    ensures { IfOk result (λ names. names.keys ≡ shown_names rows.now) }
{
    let mut names = first_names(alloc, Seeds::fixed(), some_hierarchy(rows))?;
    learn_rows(alloc, &mut names, rows)?;
    Ok(names)
}

/// `path`, where some row has a hierarchy. Names hash by these seeds.
pub(crate) fn first_names(
    alloc: Global,
    seeds: Seeds,
    nested: bool,
) -> Result<IndexSet<Text, Seeds>, OutOfMemory>
    ensures { IfOk result (λ names. names.keys
        ≡ (if nested then codes "path" ∷ [] else [])) }
{
    let mut names = IndexSet::with_hasher(alloc, seeds);
    if !nested {
        return Ok(names);
    }
    names.insert(Text::from_str(alloc, "path")?)?;
    Ok(names)
}

fn some_hierarchy(rows: &[Rec]) -> bool
    ensures { result ≡ list_any (λ row. has_entries (hierarchy row)) rows.now }
{
    rows.iter().any(|row| has_hierarchy(row))
}

/// Learns the names of the entries of rows, those of hierarchies aside.
fn learn_rows(
    alloc: Global,
    names: &mut IndexSet<Text, Seeds>,
    rows: &[Rec],
) -> Result<(), OutOfMemory>
    ensures { OnOk result (names.new.keys ≡ learned names.old.keys
        (flat_map (λ row. map (λ e. e.attr.name) (other_entries row)) rows.now)) }
{
    for row in rows {
        learn_row(alloc, names, row)?;
    }
    Ok(())
}

fn learn_row(alloc: Global, names: &mut IndexSet<Text, Seeds>, row: &Rec) -> Result<(), OutOfMemory>
    ensures { OnOk result (names.new.keys
        ≡ learned names.old.keys (map (λ e. e.attr.name) (other_entries row.now))) }
{
    for path in row.paths.as_slice() {
        learn_entries(alloc, names, true, path.as_slice())?;
    }
    learn_entries(alloc, names, false, row.imms.as_slice())?;
    Ok(())
}

/// Learns the names of entries, in paths of those that aren't of the hierarchy.
fn learn_entries(
    alloc: Global,
    names: &mut IndexSet<Text, Seeds>,
    in_path: bool,
    entries: &[Entry],
) -> Result<(), OutOfMemory>
    ensures { OnOk result
        (names.new.keys ≡ learned names.old.keys (names_beside in_path entries.now)) }
{
    for entry in entries {
        if !(in_path && is_of_hierarchy(&entry.attr)) {
            learn(alloc, names, &entry.attr.name)?;
        }
    }
    Ok(())
}

/// Learns a name, which is copied where it is new.
pub(crate) fn learn(
    alloc: Global,
    names: &mut IndexSet<Text, Seeds>,
    name: &Text,
) -> Result<(), OutOfMemory>
    ensures { OnOk result (names.new.keys ≡ learned_one names.old.keys name.now) }
{
    if !names.contains(name) {
        names.insert(name.copy(alloc)?)?;
    }
    Ok(())
}

/// Whether a row has entries of the hierarchy.
fn has_hierarchy(row: &Rec) -> bool
    ensures { result ≡ has_entries (hierarchy row.now) }
{
    some_nested(row.paths.as_slice())
}

fn some_nested(paths: &[Seq<Entry>]) -> bool
    ensures { result ≡ list_any (λ path. list_any (λ e. is_nested e.attr) path) paths.now }
{
    paths.iter().any(|path| has_nested(path.as_slice()))
}

fn has_nested(entries: &[Entry]) -> bool
    ensures { result ≡ list_any (λ e. is_nested e.attr) entries.now }
{
    entries.iter().any(|entry| is_of_hierarchy(&entry.attr))
}
