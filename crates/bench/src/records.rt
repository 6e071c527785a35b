//! Records to be written.

use anyhow::Result;
use cal_value::{Attribute, Entry, Kind, Props, Rec, Records, Seq, Text, Variant};
use std::alloc::Global;

/// What a record is made of: the values on its path, and the names of its immediates' attributes.
pub struct Shape {
    frames: [&'static str; 4],
    results: [&'static str; 10],
}

pub const SOLVING: Shape = Shape {
    frames: ["main", "steps", "solve", "exchange"],
    results: [
        "count",
        "sum#time.duration.ns",
        "min#time.duration.ns",
        "max#time.duration.ns",
        "sum#bytes",
        "min#bytes",
        "max#bytes",
        "sum#iterations",
        "min#iterations",
        "max#iterations",
    ],
};

/// All of its nodes but the first, and all of its attributes, are others.
pub const WRITING: Shape = Shape {
    frames: ["main", "output", "write", "flush"],
    results: [
        "writes",
        "sum#time.waiting.ns",
        "min#time.waiting.ns",
        "max#time.waiting.ns",
        "sum#pages",
        "min#pages",
        "max#pages",
        "sum#attempts",
        "min#attempts",
        "max#attempts",
    ],
};

/// So many records, of which every second one is of the other shape, and no globals.
pub fn in_turn(alloc: Global, one: &Shape, other: &Shape, count: usize) -> Result<Records> {
    let mut rows = Seq::new(alloc);
    for number in 0..count {
        let shape = if number % 2 == 0 { one } else { other };
        rows.push(record(alloc, shape, number % 2 + 1)?)?;
    }
    let globals = Rec {
        paths: Seq::new(alloc),
        imms: Seq::new(alloc),
    };
    Ok(Records { rows, globals })
}

/// A record of this shape; its numbers go by `variant`.
fn record(alloc: Global, shape: &Shape, variant: usize) -> Result<Rec> {
    let mut paths = Seq::new(alloc);
    paths.push(path(alloc, shape)?)?;
    let imms = results(alloc, shape, variant)?;
    Ok(Rec { paths, imms })
}

fn path(alloc: Global, shape: &Shape) -> Result<Seq<Entry>> {
    let mut path = Seq::new(alloc);
    for name in shape.frames.iter() {
        path.push(frame(alloc, name)?)?;
    }
    Ok(path)
}

fn frame(alloc: Global, name: &str) -> Result<Entry> {
    let value = Variant::Text(Text::from_str(alloc, name)?);
    entry(alloc, "function", Kind::Str, 276, value)
}

fn results(alloc: Global, shape: &Shape, variant: usize) -> Result<Seq<Entry>> {
    let mut imms = Seq::new(alloc);
    for (place, name) in shape.results.iter().enumerate() {
        let number = 1000i128 * place as i128 + variant as i128;
        imms.push(entry(alloc, name, Kind::Int, 65, Variant::Int(number))?)?;
    }
    Ok(imms)
}

fn entry(alloc: Global, name: &str, kind: Kind, props: u32, value: Variant) -> Result<Entry> {
    let name = Text::from_str(alloc, name)?;
    let props = Props(props);
    let attr = Attribute { name, kind, props };
    Ok(Entry { attr, value })
}
