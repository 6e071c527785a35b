//! The attributes of the example, and the shape of its tables.
ghost use Rattle.std.specs.Prelude.{◌≡◌, ◌<◌, IfOk, length};
ghost use Rattle.cal_context.specs.Lists.{AreApart};

use crate::looks::is_true;
use cal_table::TableShape;
use cal_value::{Attribute, Kind, OutOfMemory, Props, Seq, Text, TryCopy};
use std::alloc::Global;
use std::hash::RandomState;
use std::io;

const NAMES: [&str; 4] = ["rank", "phase", "time", "other"];

fn attribute(alloc: Global, number: usize) -> Result<Attribute, OutOfMemory>
    requires { number < 4 }
    ensures { IfOk result (λ attr. attr.props.0 ≡ number) }
{
    Ok(Attribute {
        name: Text::from_str(alloc, NAMES[number])?,
        kind: Kind::Int,
        props: Props(number as u32),
    })
}

/// The attributes by their numbers.
pub(crate) fn attributes(alloc: Global) -> Result<Seq<Attribute>, OutOfMemory>
    ensures long { IfOk result (λ attrs. length attrs ≡ 4) }
    ensures apart { IfOk result AreApart }
{
    let mut attrs = Seq::new(alloc);
    for number in 0..4 {
        attrs.push(attribute(alloc, number)?)?;
    }
    Ok(attrs)
}

fn texts(alloc: Global, names: &[&str]) -> Result<Seq<Text>, OutOfMemory> {
    let mut texts = Seq::new(alloc);
    for name in names {
        texts.push(Text::from_str(alloc, name)?)?;
    }
    Ok(texts)
}

/// The shape of tables with the keys `phase` and `rank` and the value attribute `time`.
pub(crate) fn shape(
    alloc: Global,
    hashers: RandomState,
    attrs: &Seq<Attribute>,
) -> Result<TableShape, OutOfMemory> {
    let keys = texts(alloc, &["phase", "rank"])?;
    let values = texts(alloc, &["time"])?;
    TableShape::of(alloc, hashers, &keys, &values, attrs)
}

// Of each attribute whether it is a key, and whether it is the value attribute.
const KEYS: [bool; 4] = [true, true, false, false];

const TIMES: [bool; 4] = [false, false, true, false];

fn has_flags(shape: &TableShape) -> bool {
    let Some(times) = shape.values.get(0) else {
        return false;
    };
    shape.values.len() == 1
        && shape.keys.as_slice() == KEYS.as_slice()
        && times.as_slice() == TIMES.as_slice()
}

fn is_right(alloc: Global, hashers: RandomState) -> Result<bool, OutOfMemory> {
    let attrs = attributes(alloc)?;
    let shape = shape(alloc, hashers, &attrs)?;
    let copy = shape.copy(alloc)?;
    Ok(has_flags(&shape) && has_flags(&copy))
}

#[test]
fn a_shape_is_that_of_the_names(rt: HostRuntime) -> io::Result<()> {
    let hashers = RandomState::new(&rt)?;
    is_true(&rt, is_right(rt.alloc(), hashers));
    Ok(())
}
