ghost use Rattle.std.specs.Prelude.{◌≡◌, [], ◌++◌, List, length, map, IfOk, OnOk, Some};
ghost use Rattle.std.specs.List.{list_any};
ghost use Rattle.std.specs.Option.{option_copied};
ghost use Rattle.cal_agg.specs.declared.num.Num.{Num as Number};
ghost use Rattle.cal_filter.specs.Kept.{result_entry as result_entry_of};
ghost use Rattle.cal_filter.specs.Numbers.{value_of_number as value_of};
ghost use Rattle.cal_value.specs.declared.record.Rec.{Rec as ARecord};
ghost use Rattle.cal_engine.specs.Finishing.{entries_of_results, entry_of_result, row_with};
ghost use Rattle.cal_engine.specs.Finishing.{rows_by, AreGroupParts, AreKept, GroupLists, Lists};
ghost use Rattle.cal_parts.specs.Shown.{TakesWhole};
ghost use Rattle.cal_engine.specs.Finishing.{is_inclusive, looks_beyond};
ghost use Rattle.cal_engine.specs.Folding.{groups_over};
ghost use Rattle.cal_keys.specs.Groups.{groups_of};
ghost use Rattle.cal_parts.specs.Kernels.{contributed, result_of};
ghost use Rattle.cal_parts.specs.Parts.{part_over, parts_over};
ghost use Rattle.cal_engine.specs.Rows.{row_of as row_by};

use crate::below::parts_below;
use crate::groups::total;
use cal_agg::Num;
use cal_filter::value_of_number;
use cal_parts::{Part, PartTable, push_some};
use cal_ql::{Agg, KernelName, Query};
use cal_value::{Attribute, Entry, Kind, OutOfMemory, Props, Rec, Seq, Text, TryCopy};
use std::alloc::Global;

/// Adds the entries of a group's results, those that are there.
fn add_results(
    alloc: Global,
    entries: &mut Vec<Entry>,
    aggs: &[Agg],
    own: &Seq<Part>,
    all: &Seq<Part>,
    below: &Seq<Part>,
) -> Result<(), OutOfMemory>
    ensures { OnOk result ((lists : Lists) → AreKept aggs.now lists own.now all.now below.now
        → entries.new.items ≡ entries.old.items ++ entries_of_results aggs.now lists) }
{
    for (place, agg) in aggs.iter().enumerate() {
        let found = result_at(alloc, agg, own.get(place), all.get(place), below.get(place))?;
        push_some(entries, found)?;
    }
    Ok(())
}

/// The entry of a kernel's result, if that is there.
fn result_at(
    alloc: Global,
    agg: &Agg,
    own: Option<&Part>,
    all: Option<&Part>,
    below: Option<&Part>,
) -> Result<Option<Entry>, OutOfMemory>
    ensures { IfOk result (λ entry. (lists : Lists)
        → option_copied own.entry ≡ Some (part_over agg.now.kernel (contributed agg.now lists.own))
        → option_copied all.entry ≡ Some (part_over agg.now.kernel (contributed agg.now lists.all))
        → option_copied below.entry
        ≡ Some (part_over agg.now.kernel (contributed agg.now lists.below))
        → entry ≡ entry_of_result lists agg.now) }
{
    match value_at(agg.kernel, own, all, below) {
        Some(number) => Ok(Some(result_entry(alloc, &agg.name, number)?)),
        None => Ok(None),
    }
}

/// What a kernel comes to, of the parts at its place.
pub(crate) fn value_at(
    kernel: KernelName,
    own: Option<&Part>,
    all: Option<&Part>,
    below: Option<&Part>,
) -> Option<Num>
    ensures { (ns ms bs : List Number)
        → option_copied own.entry ≡ Some (part_over kernel ns)
        → option_copied all.entry ≡ Some (part_over kernel ms)
        → option_copied below.entry ≡ Some (part_over kernel bs)
        → TakesWhole kernel ns → result ≡ result_of kernel ns ms bs }
{
    own?.value(kernel, all?, below?)
}

/// The entry of a result, of kind int, or double where it is Fixed.
fn result_entry(alloc: Global, name: &Text, number: Num) -> Result<Entry, OutOfMemory>
    ensures { IfOk result (λ entry. entry ≡ result_entry_of name.now (value_of number)) }
{
    Ok(Entry {
        attr: Attribute {
            name: name.copy(alloc)?,
            kind: match number {
                Num::Whole(_) => Kind::Int,
                Num::Fixed(_) => Kind::Double,
            },
            props: Props(65),
        },
        value: value_of_number(number),
    })
}

/// The row of a group.
fn row(
    alloc: Global,
    aggs: &[Agg],
    key: Rec,
    own: &Seq<Part>,
    all: &Seq<Part>,
    below: &Seq<Part>,
) -> Result<Rec, OutOfMemory>
    ensures { IfOk result (λ row. (lists : Lists) → AreKept aggs.now lists own.now all.now below.now
        → row ≡ row_with key (entries_of_results aggs.now lists)) }
{
    let Rec { paths, imms } = key;
    let mut entries = imms.into_vec();
    add_results(alloc, &mut entries, aggs, own, all, below)?;
    Ok(Rec {
        paths,
        imms: Seq::from_vec(entries),
    })
}

/// The rows of groups, in first-seen order.
pub(crate) fn group_rows(
    alloc: Global,
    query: &Query,
    keys: Vec<Rec>,
    parts: &[Seq<Part>],
) -> Result<Seq<Rec>, OutOfMemory>
    requires { length parts.now ≡ length keys.items }
    ensures { IfOk result (λ rows. (rs : List ARecord)
        → record { keys = keys.items; parts = parts.now } ≡ groups_over query.now rs
        → rows ≡ map (row_by query.now rs) (groups_of query.now.group rs)) }
{
    let aggs = query.aggs.as_slice();
    let none = no_parts(alloc, aggs)?;
    let table = PartTable::of(alloc, parts)?;
    let all = total(alloc, &table, &none)?;
    if some_inclusive(aggs) {
        let below = parts_below(alloc, &keys, &table, &none)?;
        let made = rows(alloc, aggs, keys, parts, &all, &below)?;
        return Ok(made);
    }
    let made = rows(alloc, aggs, keys, parts, &all, parts)?;
    Ok(made)
}

/// Whether some kernel looks at the groups below a group.
pub(crate) fn some_inclusive(aggs: &[Agg]) -> bool
    ensures { result ≡ list_any (λ agg. is_inclusive agg.kernel) aggs.now }
{
    aggs.iter()
        .any(|agg| matches!(agg.kernel, KernelName::Inclusive))
}

/// Whether some kernel looks at more than a group's own records.
pub(crate) fn some_beyond(aggs: &[Agg]) -> bool
    ensures { result ≡ list_any (λ agg. looks_beyond agg.kernel) aggs.now }
{
    aggs.iter().any(|agg| matches!(agg.kernel, KernelName::Inclusive | KernelName::Percent))
}

/// The rows of groups, each of its own parts, of those of all groups, and of those below it.
fn rows(
    alloc: Global,
    aggs: &[Agg],
    keys: Vec<Rec>,
    parts: &[Seq<Part>],
    all: &Seq<Part>,
    below: &[Seq<Part>],
) -> Result<Seq<Rec>, OutOfMemory>
    requires parts { length parts.now ≡ length keys.items }
    requires below { length below.now ≡ length keys.items }
    ensures { IfOk result (λ rows. (lists : GroupLists)
        → AreGroupParts aggs.now lists keys.items parts.now all.now below.now
        → rows ≡ rows_by aggs.now lists keys.items) }
{
    let mut rows = Vec::with_capacity(alloc, keys.len())?;
    for key in keys {
        let number = rows.len();
        rows.push(row(alloc, aggs, key, &parts[number], all, &below[number])?)?;
    }
    Ok(Seq::from_vec(rows))
}

/// What is kept of no record.
pub(crate) fn no_parts(alloc: Global, aggs: &[Agg]) -> Result<Seq<Part>, OutOfMemory>
    ensures { IfOk result (λ parts. parts ≡ parts_over aggs.now []) }
{
    let mut parts = Vec::with_capacity(alloc, aggs.len())?;
    for agg in aggs {
        parts.push(Part::of(agg.kernel, &[])?)?;
    }
    Ok(Seq::from_vec(parts))
}
