ghost use Rattle.std.specs.Prelude.{◌≡◌, ℕ, List, ◌∷◌, ◌++◌, map, None, option_map, IfOk, OnOk};
ghost use Rattle.std.specs.List.{filter_map, last_or};
ghost use Rattle.std.specs.Option.{option_to_list};
ghost use Rattle.cal_filter.specs.Named.{is_named as is_named_so, last_number as last_number_of};
ghost use Rattle.cal_value.specs.Flat.{flat};
ghost use Rattle.cal_parts.specs.Kernels.{contributing};
ghost use Rattle.cal_parts.specs.Kernels.{number_sought as sought_in, numbers_sought};
ghost use Rattle.cal_parts.specs.Kernels.{or_else as or_else_of, weight as weight_of};
ghost use Rattle.cal_parts.specs.Readings.{part_of as part_by, parts_of as parts_by, reading_of};

use crate::part::Part;
use cal_agg::Num;
use cal_filter::number_in;
use cal_ql::{Agg, KernelName};
use cal_value::{Entry, OutOfMemory, Rec, Seq, Text, TryCopy, Variant};
use std::alloc::Global;

/// What is read of a record for a kernel: the last numbers of these names, and for `count` the
/// weight of the record.
#[derive(Drop)]
pub struct Reading {
    pub kernel: KernelName,
    pub names: Seq<Text>,
}

impl Reading {
    pub(crate) fn of(alloc: Global, agg: &Agg) -> Result<Reading, OutOfMemory>
        ensures { IfOk result (λ reading. reading ≡ reading_of agg.now) }
    {
        let mut names = Vec::with_capacity(alloc, 2)?;
        names.push(agg.attr.copy(alloc)?)?;
        if let Some(prefix) = prefix_of(agg.kernel) {
            let mut name = Text::from_str(alloc, prefix)?;
            name.push_str(agg.attr.as_str())?;
            names.push(name)?;
        }
        Ok(Reading {
            kernel: agg.kernel,
            names: Seq::from_vec(names),
        })
    }

    /// What is kept of one record.
    fn part_of(&self, alloc: Global, rec: &Rec) -> Result<Part, OutOfMemory>
        ensures { IfOk result (λ part. part ≡ part_by self.now rec.now) }
    {
        match self.kernel {
            KernelName::Count => Part::of(self.kernel, &[weight(rec)]),
            _ => Part::of(self.kernel, &last_numbers(alloc, &self.names, rec)?),
        }
    }
}

/// The parts of the readings of one record.
pub fn parts_of(alloc: Global, readings: &[Reading], rec: &Rec) -> Result<Seq<Part>, OutOfMemory>
    ensures { IfOk result (λ parts. parts ≡ parts_by readings.now rec.now) }
{
    let mut parts = Vec::with_capacity(alloc, readings.len())?;
    for reading in readings {
        parts.push(reading.part_of(alloc, rec)?)?;
    }
    Ok(Seq::from_vec(parts))
}

/// The readings of kernels.
pub fn readings_of(alloc: Global, aggs: &[Agg]) -> Result<Vec<Reading>, OutOfMemory>
    ensures { IfOk result (λ readings. readings.items ≡ map reading_of aggs.now) }
{
    let mut readings = Vec::with_capacity(alloc, aggs.len())?;
    for agg in aggs {
        readings.push(Reading::of(alloc, agg)?)?;
    }
    Ok(readings)
}

/// What stands before A in the other name that contributes to a kernel.
fn prefix_of(kernel: KernelName) -> Option<&'static str>
    ensures { (attr : List ℕ) → contributing kernel attr
        ≡ attr ∷ option_to_list (option_map (λ prefix. prefix.now ++ attr) result) }
{
    match kernel {
        KernelName::Avg => None,
        KernelName::Min => Some("min#"),
        KernelName::Max => Some("max#"),
        _ => Some("sum#"),
    }
}

fn last_numbers(alloc: Global, names: &Seq<Text>, rec: &Rec) -> Result<Vec<Num>, OutOfMemory>
    ensures { IfOk result (λ numbers. numbers.items
        ≡ filter_map (λ name. last_number_of name rec.now) names.now) }
{
    let mut numbers = Vec::with_capacity(alloc, names.len())?;
    for name in names.as_slice() {
        push_some(&mut numbers, last_number(false, name.as_str(), rec))?;
    }
    Ok(numbers)
}

/// Adds an item, if there is one.
pub fn push_some<T: Drop>(items: &mut Vec<T>, item: Option<T>) -> Result<(), OutOfMemory>
    ensures { OnOk result (items.new.items ≡ items.old.items ++ option_to_list item) }
{
    if let Some(item) = item {
        items.push(item)?;
    }
    Ok(())
}

/// How much a record counts.
fn weight(rec: &Rec) -> Num
    ensures { result ≡ weight_of rec.now }
{
    last_number(true, "count", rec).unwrap_or(Num::Whole(1))
}

/// The last number of a name, where that is said the last whole one.
fn last_number(whole: bool, name: &str, rec: &Rec) -> Option<Num>
    ensures { result ≡ last_or None (numbers_sought whole name.now (flat rec.now)) }
{
    let mut last = None;
    for path in rec.paths.as_slice() {
        last = last_among(whole, name, path.as_slice(), last);
    }
    last_among(whole, name, rec.imms.as_slice(), last)
}

/// The last number of a name among entries, or else the one before.
fn last_among(whole: bool, name: &str, entries: &[Entry], before: Option<Num>) -> Option<Num>
    ensures { result ≡ last_or before (numbers_sought whole name.now entries.now) }
{
    let mut last = before;
    for entry in entries {
        if is_named(name, entry) {
            last = or_else(number_sought(whole, &entry.value), last);
        }
    }
    last
}

fn or_else(number: Option<Num>, last: Option<Num>) -> Option<Num>
    ensures { result ≡ or_else_of number last }
{
    if number.is_some() { number } else { last }
}

#[tactic(auto, using(crate::proofs::SameTexts::same_texts))]
pub fn is_named(name: &str, entry: &Entry) -> bool
    ensures { result ≡ is_named_so name.now entry.now }
{
    entry.attr.name.as_str() == name
}

pub(crate) fn number_sought(whole: bool, value: &Variant) -> Option<Num>
    ensures { result ≡ sought_in whole value.now }
{
    match number_in(value)? {
        Num::Fixed(_) if whole => None,
        number => Some(number),
    }
}
