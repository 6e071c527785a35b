//! What the names of a definition give in a record.
ghost use Rattle.std.specs.Prelude.{◌≡◌, length, map, slice_get, slice_index_or, IfOk, OnOk};
ghost use Rattle.std.specs.List.{All, AllZip, filter_map};
ghost use Rattle.std.specs.Option.{ForSome};
ghost use Rattle.cal_agg.specs.Numbers.{IsSmall};
ghost use Rattle.cal_context.specs.Snapshots.{IsIn, meaning};
ghost use Rattle.cal_context.specs.Tree.{Tree};
ghost use Rattle.cal_filter.specs.Known.{Knows, sought};
ghost use Rattle.cal_filter.specs.Latest.{AreReadyOperands, IsNamed, IsReadyOperand, KnowsAllNames};
ghost use Rattle.cal_filter.specs.Sought.{number_sought, sought_by, value_sought};
ghost use Rattle.cal_filter.specs.Named.{HasSmallNumbers};
ghost use Rattle.cal_filter.specs.Numbers.{number_in as number_in_value};
ghost use Rattle.cal_filter.specs.Replaced.{CatchesUp};
ghost use Rattle.cal_value.specs.Flat.{flat};
ghost use Rattle.cal_value.specs.Reading.{IsSmall as IsSmallValue};

use crate::arithmetic::limited;
use crate::latest::Latest;
use crate::seeker::Seeker;
use crate::wanted::Wanted;
use cal_agg::Num;
use cal_context::{Context, Snapshot};
use cal_ql::Op;
use cal_value::{OutOfMemory, Text, TryCopy, Variant};
use std::alloc::Global;

/// What an operator seeks by its names.
pub(crate) fn seekers_of(alloc: Global, op: Op, names: &[Text]) -> Result<Vec<Seeker>, OutOfMemory>
    ensures sought { IfOk result (λ seekers.
        map sought seekers.items ≡ map (sought_by op) names.now) }
    ensures knows { IfOk result (λ seekers. (t : Tree) → All (Knows t) seekers.items) }
{
    let mut seekers = Vec::with_capacity(alloc, names.len())?;
    for name in names {
        let seeker = Seeker::new(alloc, name.copy(alloc)?, Wanted::of_op(op));
        seekers.push(seeker)?;
    }
    Ok(seekers)
}

/// Lets each seeker know what is new in a context.
pub fn catch_up_all(seekers: &mut [Seeker], context: &Context) -> Result<(), OutOfMemory>
    ensures { OnOk result (AllZip (CatchesUp context.now) seekers.old seekers.new) }
{
    for seeker in seekers.iter_mut() {
        seeker.catch_up(context)?;
    }
    Ok(())
}

/// The same of seekers whose names have these numbers.
pub(crate) fn catch_up_by_numbers(
    seekers: &mut [Seeker],
    names: &[usize],
    latest: &Latest,
    context: &Context,
) -> Result<(), OutOfMemory>
    ensures { OnOk result (KnowsAllNames context.now latest.now
        → AllZip (IsNamed latest.now.names.keys) seekers.old names.now
        → AllZip (CatchesUp context.now) seekers.old seekers.new) }
{
    for place in 0..seekers.len() {
        let name = name_at(names, place);
        seekers[place].catch_up_by_number(context, latest, name)?;
    }
    Ok(())
}

/// The numbers that seekers find in a record, each where it is within the limit. `names` are the
/// numbers of their names.
pub(crate) fn fill_numbers(
    seekers: &[Seeker],
    names: &[usize],
    latest: &Latest,
    context: &Context,
    snapshot: &Snapshot,
    numbers: &mut Vec<Option<Num>>,
) -> Result<(), OutOfMemory>
    requires { IsIn context.now snapshot.now }
    ensures few { OnOk result (length numbers.new.items ≡ length seekers.now) }
    ensures small { OnOk result (All (λ number. ForSome number IsSmall) numbers.new.items) }
    ensures found { OnOk result (AreReadyOperands context.now latest.now
        snapshot.now.imms.items seekers.now names.now
        → HasSmallNumbers (meaning context.now snapshot.now) → numbers.new.items
        ≡ map (λ s. number_sought (sought s) (flat (meaning context.now snapshot.now)))
        seekers.now) }
{
    numbers.clear();
    for place in 0..seekers.len() {
        let seeker = &seekers[place];
        let name = name_at(names, place);
        let number = number_found(seeker, name, latest, context, snapshot);
        numbers.push(number)?;
    }
    Ok(())
}

// A number above the limit is none, so that no record makes a sum too large.
#[inline(always)]
pub(crate) fn number_found(
    seeker: &Seeker,
    name: usize,
    latest: &Latest,
    context: &Context,
    snapshot: &Snapshot,
) -> Option<Num>
    requires { IsIn context.now snapshot.now }
    ensures small { ForSome result IsSmall }
    ensures found { IsReadyOperand context.now latest.now snapshot.now.imms.items seeker.now name
        → HasSmallNumbers (meaning context.now snapshot.now)
        → result ≡ number_sought (sought seeker.now) (flat (meaning context.now snapshot.now)) }
{
    match seeker.find_by(name, latest, context, snapshot) {
        Some(value) => small_number(value),
        None => None,
    }
}

#[inline(always)]
fn small_number(value: &Variant) -> Option<Num>
    ensures small { ForSome result IsSmall }
    ensures number { IsSmallValue value.now → result ≡ number_in_value value.now }
{
    match value {
        Variant::Int(number) => limited(Num::Whole(*number)),
        Variant::Uint(number) => Some(Num::Whole(i128::from(*number))),
        Variant::Fixed(nanos) => limited(Num::Fixed(*nanos)),
        _ => None,
    }
}

/// The value that the first seeker finds of those that find one.
pub(crate) fn first_found(
    alloc: Global,
    seekers: &[Seeker],
    names: &[usize],
    latest: &Latest,
    context: &Context,
    snapshot: &Snapshot,
) -> Result<Option<Variant>, OutOfMemory>
    requires { IsIn context.now snapshot.now }
    ensures { IfOk result (λ value. AreReadyOperands context.now latest.now
        snapshot.now.imms.items seekers.now names.now → value ≡ slice_get
        (filter_map (λ s. value_sought (sought s) (flat (meaning context.now snapshot.now)))
        seekers.now) 0) }
{
    for place in 0..seekers.len() {
        let seeker = &seekers[place];
        let name = name_at(names, place);
        match seeker.find_by(name, latest, context, snapshot) {
            Some(value) => return Ok(Some(value.copy(alloc)?)),
            None => {}
        }
    }
    Ok(None)
}

/// The number of the name at a place.
#[inline(always)]
pub(crate) fn name_at(names: &[usize], place: usize) -> usize
    ensures { result ≡ slice_index_or names.now place 0 }
{
    names.get(place).copied().unwrap_or(0)
}
