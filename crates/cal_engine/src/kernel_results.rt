ghost use Rattle.std.specs.Prelude.{◌≡◌, ◌++◌, [], List, option_map, slice_get, slice_index_or};
ghost use Rattle.std.specs.Prelude.{IfOk, OnOk, Some};
ghost use Rattle.std.specs.List.{AllZip};
ghost use Rattle.std.specs.Option.{option_copied};
ghost use Rattle.cal_context.specs.Snapshots.{entry_of};
ghost use Rattle.cal_context.specs.Tree.{Grows, Tree};
ghost use Rattle.cal_filter.specs.Kept.{result_entry as result_entry_of};
ghost use Rattle.cal_filter.specs.Numbers.{value_of_number as value_of};
ghost use Rattle.cal_ql.specs.declared.query.Agg.{Agg as AnAgg};
ghost use Rattle.cal_engine.specs.Finishing.{AreKept, Lists, entries_of_results};
ghost use Rattle.cal_engine.specs.Finishing.{entry_of_result};
ghost use Rattle.cal_parts.specs.Kernels.{contributed};
ghost use Rattle.cal_engine.specs.Making.{below_of};
ghost use Rattle.cal_parts.specs.Parts.{part_over};
ghost use Rattle.cal_engine.specs.Results.{AddsResults, AreKeptAt, IsResultOf};

use crate::finishing::value_at;
use crate::numbered::NumberedGroups;
use crate::other_parts::OtherParts;
use cal_agg::Num;
use cal_context::{AttributeNumber, Context, Immediate};
use cal_filter::{result_attribute, value_of_number};
use cal_parts::{Part, push_some};
use cal_ql::{Agg, KernelName};
use cal_value::{Kind, OutOfMemory};
use std::alloc::Global;

/// A kernel, and the attributes that its results have in a context: of kind int, or double where
/// they are Fixed.
#[derive(Drop)]
pub(crate) struct ResultAttributes {
    kernel: KernelName,
    whole: AttributeNumber,
    fixed: AttributeNumber,
}

/// The attributes of kernels' results, which are added to the context.
pub(crate) fn result_attributes(
    alloc: Global,
    context: &mut Context,
    aggs: &[Agg],
) -> Result<Vec<ResultAttributes>, OutOfMemory>
    ensures results { IfOk result (λ results.
        AllZip (IsResultOf context.new) aggs.now results.items) }
    ensures grows { Grows context.old context.new }
{
    let mut results = Vec::new(alloc);
    for agg in aggs {
        let attributes = attributes_of(alloc, context, agg)?;
        results.push(attributes)?;
    }
    Ok(results)
}

fn attributes_of(
    alloc: Global,
    context: &mut Context,
    agg: &Agg,
) -> Result<ResultAttributes, OutOfMemory>
    ensures attributes { IfOk result (IsResultOf context.new agg.now) }
    ensures grows { Grows context.old context.new }
{
    let whole = result_attribute(alloc, &agg.name, Kind::Int, context)?;
    let fixed = result_attribute(alloc, &agg.name, Kind::Double, context)?;
    Ok(ResultAttributes {
        kernel: agg.kernel,
        whole,
        fixed,
    })
}

/// Adds a group's results, those that are there.
pub(crate) fn add_result_immediates(
    imms: &mut Vec<Immediate>,
    results: &[ResultAttributes],
    groups: &NumberedGroups,
    number: usize,
    others: &OtherParts,
) -> Result<(), OutOfMemory>
    ensures { OnOk result ((t : Tree) (aggs : List AnAgg) (lists : Lists)
        → AllZip (IsResultOf t) aggs results.now
        → AreKept aggs lists (slice_index_or groups.now.parts number []) others.now.all
        (slice_index_or (below_of others.now groups.now.parts) number [])
        → AddsResults t (entries_of_results aggs lists) imms.old.items imms.new.items) }
{
    for (place, attributes) in results.iter().enumerate() {
        let found = found_at(attributes, groups, number, place, others);
        push_some(imms, found)?;
    }
    Ok(())
}

/// The result of the kernel at a place, if that is there. Nearly all are held as they are shown.
#[inline(always)]
fn found_at(
    attributes: &ResultAttributes,
    groups: &NumberedGroups,
    number: usize,
    place: usize,
    others: &OtherParts,
) -> Option<Immediate>
    ensures { (t : Tree) (agg : AnAgg) (lists : Lists) → IsResultOf t agg attributes.now
        → AreKeptAt agg lists place (slice_index_or groups.now.parts number []) others.now.all
        (slice_index_or (below_of others.now groups.now.parts) number [])
        → option_map (entry_of t) result ≡ entry_of_result lists agg }
{
    match groups.parts().shown(number, place, attributes.kernel) {
        Some(whole) => Some(immediate(attributes, Num::Whole(i128::from(whole)))),
        None => worked_out_at(attributes, groups, number, place, others),
    }
}

/// The same of the parts at that place.
#[inline(never)]
fn worked_out_at(
    attributes: &ResultAttributes,
    groups: &NumberedGroups,
    number: usize,
    place: usize,
    others: &OtherParts,
) -> Option<Immediate>
    ensures { (t : Tree) (agg : AnAgg) (lists : Lists) → IsResultOf t agg attributes.now
        → AreKeptAt agg lists place (slice_index_or groups.now.parts number []) others.now.all
        (slice_index_or (below_of others.now groups.now.parts) number [])
        → option_map (entry_of t) result ≡ entry_of_result lists agg }
{
    let own_part = groups.parts().get(number, place);
    let all_part = part_at(others.all(), place);
    let below_part = others.below_at(number, place, own_part.as_ref());
    result_at(attributes, own_part.as_ref(), all_part, below_part.as_ref())
}

/// The part of the kernel at a place.
fn part_at(parts: &[Part], place: usize) -> Option<&Part>
    ensures { option_copied result ≡ slice_get parts.now place }
{
    parts.get(place)
}

/// A kernel's result, if that is there.
fn result_at(
    attributes: &ResultAttributes,
    own: Option<&Part>,
    all: Option<&Part>,
    below: Option<&Part>,
) -> Option<Immediate>
    ensures { (t : Tree) (agg : AnAgg) (lists : Lists) → IsResultOf t agg attributes.now
        → option_copied own.entry ≡ Some (part_over agg.kernel (contributed agg lists.own))
        → option_copied all.entry ≡ Some (part_over agg.kernel (contributed agg lists.all))
        → option_copied below.entry ≡ Some (part_over agg.kernel (contributed agg lists.below))
        → option_map (entry_of t) result ≡ entry_of_result lists agg }
{
    match value_at(attributes.kernel, own, all, below) {
        Some(number) => Some(immediate(attributes, number)),
        None => None,
    }
}

fn immediate(attributes: &ResultAttributes, number: Num) -> Immediate
    ensures { (t : Tree) (agg : AnAgg) → IsResultOf t agg attributes.now
        → entry_of t result ≡ result_entry_of agg.name (value_of number) }
{
    match number {
        Num::Whole(_) => Immediate {
            attribute: attributes.whole,
            value: value_of_number(number),
        },
        Num::Fixed(_) => Immediate {
            attribute: attributes.fixed,
            value: value_of_number(number),
        },
    }
}
