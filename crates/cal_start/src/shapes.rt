//! The shapes of a run's tables, one for each channel.
ghost use Rattle.std.specs.Prelude.{◌≡◌, IfOk};
ghost use Rattle.cal_start.specs.Runs.{shape_for, shapes_for};

use cal_context::{AttributeNumber, Context};
use cal_script::{Channel, Script};
use cal_table::TableShape;
use cal_value::{Attribute, OutOfMemory, Seq, TryCopy};
use std::alloc::Global;
use std::hash::RandomState;

/// The shape of each channel's tables, by the attributes of a context. It takes time and memory in
/// the attributes for each name of a channel's query.
pub(crate) fn shapes_of(
    alloc: Global,
    hashers: RandomState,
    script: &Script,
    context: &Context,
) -> Result<Vec<TableShape>, OutOfMemory>
    ensures { IfOk result
        (λ shapes. shapes.items ≡ shapes_for hashers context.now.attributes script.now) }
{
    let attributes = attributes_of(alloc, context)?;
    let mut shapes = Vec::with_capacity(alloc, script.channels.len())?;
    for channel in script.channels.as_slice() {
        shapes.push(shape_for(alloc, hashers, channel, &attributes)?)?;
    }
    Ok(shapes)
}

/// The shape of a channel's tables.
fn shape_for(
    alloc: Global,
    hashers: RandomState,
    channel: &Channel,
    attributes: &Seq<Attribute>,
) -> Result<TableShape, OutOfMemory>
    ensures { IfOk result (λ shape. shape ≡ shape_for hashers attributes.now channel.now) }
{
    let query = &channel.query;
    TableShape::of(alloc, hashers, &query.keys, &query.values, attributes)
}

/// Copies of a context's attributes, by their numbers. A context that had more than numbers count
/// is answered as want of memory is.
fn attributes_of(alloc: Global, context: &Context) -> Result<Seq<Attribute>, OutOfMemory>
    ensures { IfOk result (λ attributes. attributes ≡ context.now.attributes) }
{
    let Ok(count) = u32::try_from(context.attribute_count()) else {
        return Err(OutOfMemory);
    };
    let mut attributes = Vec::with_capacity(alloc, count as usize)?;
    for number in 0..count {
        attributes.push(context.attribute_at(AttributeNumber(number)).copy(alloc)?)?;
    }
    Ok(Seq::from_vec(attributes))
}
