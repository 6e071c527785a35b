//! The results of all value attributes of a channel in a context.
ghost use Rattle.std.specs.Prelude.{◌≡◌, ◌<◌, ◌≤◌, [], ◌∷◌, ◌++◌, length, min, take, IfOk, OnOk};
ghost use Rattle.std.specs.List.{All, AllZip};
ghost use Rattle.std.specs.Option.{ForSome};
ghost use Rattle.cal_agg.specs.Numbers.{IsSmall, IsWithin};
ghost use Rattle.cal_context.specs.Snapshots.{IsBelowRoot};
ghost use Rattle.cal_context.specs.Tree.{Grows};
ghost use Rattle.cal_filter.specs.Known.{KnowsAll, sought};
ghost use Rattle.cal_filter.specs.Named.{HasSmallNumbers};
ghost use Rattle.cal_filter.specs.Numbers.{number_in};
ghost use Rattle.cal_filter.specs.Sought.{number_sought};
ghost use Rattle.cal_groups.specs.Appended.{Appends, record_of};
ghost use Rattle.cal_groups.specs.Columns.{AreColumns, Finds, IsColumn};
ghost use Rattle.cal_profile.specs.TableRows.{row_entries};
ghost use Rattle.cal_value.specs.Flat.{flat};
ghost use Rattle.cal_value.specs.Reading.{IsSmall as IsSmallValue};

use crate::cell_results::count_of;
use crate::column::ResultColumn;
use cal_agg::{AggRow, Num};
use cal_context::{AttributeNumber, Context, Immediate, NodeNumber};
use cal_filter::{Seeker, result_attribute};
use cal_script::ChannelQuery;
use cal_value::{Kind, OutOfMemory, Text, TryCopy, Variant};
use std::alloc::Global;

/// The attributes of a channel's results, by numbers of a context, and beside those of each value
/// attribute who finds the number of it that a row's key has.
#[derive(Drop)]
pub(crate) struct ResultColumns {
    count: AttributeNumber,
    columns: Vec<ResultColumn>,
    seekers: Vec<Seeker>,
}

impl ResultColumns {
    /// Those of these value attributes, which are added to the context where they are new. They are
    /// for the context as it then stands.
    pub(crate) fn new(
        alloc: Global,
        values: &[Text],
        context: &mut Context,
    ) -> Result<ResultColumns, OutOfMemory>
        ensures columns { IfOk result (AreColumns context.new values.now) }
        ensures grows { Grows context.old context.new }
    {
        let name = Text::from_str(alloc, "count")?;
        let count = result_attribute(alloc, &name, Kind::Int, context)?;
        let columns = columns_of(alloc, values, context)?;
        let seekers = seekers_of(alloc, values, context)?;
        Ok(ResultColumns {
            count,
            columns,
            seekers,
        })
    }

    /// Appends the immediates of a row's results. The nodes and the immediates before are those of
    /// the row's key.
    pub(crate) fn push_results(
        &self,
        channel: &ChannelQuery,
        context: &Context,
        held: &AggRow,
        nodes: &[NodeNumber],
        imms: &mut Vec<Immediate>,
    ) -> Result<(), OutOfMemory>
        requires columns { AreColumns context.now channel.now.values self.now }
        requires count { IsWithin 40 held.now.count }
        requires nodes { All (IsBelowRoot context.now) nodes.now }
        requires imms { All (λ i. i.attribute.0 < length context.now.attributes) imms.old.items }
        requires small { HasSmallNumbers (record_of context.now nodes.now imms.old.items) }
        ensures { OnOk result (Appends context.now imms.old.items imms.new.items
            (row_entries channel.now (record {
              key = record_of context.now nodes.now imms.old.items;
              held = held.now;
            }))) }
    {
        let before = imms.as_slice();
        let own = before.len();
        let count = count_of(held);
        self.push_count(count, imms)?;
        let cells = held.cells.as_slice();
        let columns = self.columns.as_slice();
        let seekers = self.seekers.as_slice();
        for place in 0..lesser(channel.values.len(), cells.len()) {
            let all = imms.as_slice();
            let key = front(all, own);
            let known = known_number(&seekers[place], context, nodes, key);
            columns[place].push_cell(count, known, &cells[place], imms)?;
        }
        Ok(())
    }

    fn push_count(&self, count: i128, imms: &mut Vec<Immediate>) -> Result<(), OutOfMemory>
        ensures { OnOk result (imms.new.items ≡ imms.old.items ++ record {
          attribute = self.now.count;
          value = Variant.Int count;
        } ∷ []) }
    {
        let attribute = self.count;
        imms.push(Immediate {
            attribute,
            value: Variant::Int(count),
        })?;
        Ok(())
    }
}

fn lesser(one: usize, other: usize) -> usize
    ensures { result ≡ min one other }
{
    if one < other { one } else { other }
}

/// The first ones of immediates.
fn front(imms: &[Immediate], many: usize) -> &[Immediate]
    requires { many ≤ length imms.now }
    ensures { result.now ≡ take many imms.now }
{
    &imms[..many]
}

/// The columns of value attributes, in their order.
fn columns_of(
    alloc: Global,
    values: &[Text],
    context: &mut Context,
) -> Result<Vec<ResultColumn>, OutOfMemory>
    ensures columns { IfOk result (λ columns.
        AllZip (IsColumn context.new) values.now columns.items) }
    ensures grows { Grows context.old context.new }
{
    let mut columns = Vec::with_capacity(alloc, values.len())?;
    for value in values {
        let column = ResultColumn::new(alloc, value.as_str(), context)?;
        columns.push(column)?;
    }
    Ok(columns)
}

/// Who finds the last number of each value attribute, in their order.
fn seekers_of(alloc: Global, values: &[Text], context: &Context) -> Result<Vec<Seeker>, OutOfMemory>
    ensures { IfOk result (λ seekers. AllZip (Finds context.now) values.now seekers.items) }
{
    let mut seekers = Vec::with_capacity(alloc, values.len())?;
    for value in values {
        let seeker = seeker_of(alloc, value, context)?;
        seekers.push(seeker)?;
    }
    Ok(seekers)
}

fn seeker_of(alloc: Global, value: &Text, context: &Context) -> Result<Seeker, OutOfMemory>
    ensures { IfOk result (Finds context.now value.now) }
{
    let mut seeker = Seeker::of_number(alloc, value.copy(alloc)?);
    seeker.catch_up(context)?;
    Ok(seeker)
}

/// The number of a value attribute that nodes and immediates have, if they have one.
fn known_number(
    seeker: &Seeker,
    context: &Context,
    nodes: &[NodeNumber],
    imms: &[Immediate],
) -> Option<Num>
    requires knows { KnowsAll context.now seeker.now }
    requires nodes { All (IsBelowRoot context.now) nodes.now }
    requires imms { All (λ i. i.attribute.0 < length context.now.attributes) imms.now }
    requires small { HasSmallNumbers (record_of context.now nodes.now imms.now) }
    ensures small { ForSome result IsSmall }
    ensures number { result ≡ number_sought (sought seeker.now)
        (flat (record_of context.now nodes.now imms.now)) }
{
    match seeker.find_among(context, nodes, imms) {
        Some(value) => small_number(value),
        None => None,
    }
}

/// The number that a small value is, if it is one.
fn small_number(value: &Variant) -> Option<Num>
    requires { IsSmallValue value.now }
    ensures small { ForSome result IsSmall }
    ensures number { result ≡ number_in value.now }
{
    match value {
        Variant::Int(number) => Some(Num::Whole(*number)),
        Variant::Uint(number) => Some(Num::Whole(i128::from(*number))),
        Variant::Fixed(nanos) => Some(Num::Fixed(*nanos)),
        _ => None,
    }
}
