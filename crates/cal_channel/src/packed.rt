//! The entries of a trace, in sixteen bytes each.
ghost use Rattle.std.specs.Prelude.{◌≡◌, ◌<◌, ◌≤◌, [], ◌∷◌, ◌++◌, length, map, take, IfOk};
ghost use Rattle.std.specs.Prelude.{IfSome, OnErr, OnOk, slice_index_or, slice_range};
ghost use Rattle.cal_channel.specs.Packed.{IsWithin, all_unpacked, unpacked};
ghost use Rattle.cal_channel.specs.Shown.{immediate_shown};
ghost use Rattle.cal_channel.specs.declared.shown.ShownValue.TheVariants as shown;
ghost use Rattle.cal_context.specs.Lists.{IsFront};
ghost use Rattle.cal_context.specs.Tree.{no_value};
ghost use Rattle.cal_value.specs.declared.variant.Variant.TheVariants as variant;

use crate::shown::opened;
use crate::{ShownEntry, ShownValue};
use cal_context::{AttributeNumber, Immediate};
use cal_script::Script;
use cal_value::{OutOfMemory, TryCopy, Variant};
use std::alloc::Global;
use std::marker::Model;

/// An entry of a trace in sixteen bytes: with the place of a value of the script, a number, a
/// whole number, or the place of another value among those that the trace keeps.
#[derive(Clone, Copy, Debug)]
pub enum PackedEntry {
    Opened(AttributeNumber, u32),
    Number(AttributeNumber, u64),
    Whole(AttributeNumber, i64),
    Kept(AttributeNumber, usize),
}

/// Entries one behind another, packed. What is kept for entries that were cut off stays.
#[derive(Drop)]
pub(crate) struct EntryList {
    entries: Vec<PackedEntry>,
    kept: Vec<Variant>,
}

/// Some of the entries of a list that stand one behind another.
#[derive(Drop)]
pub struct EntrySlice<'a> {
    entries: &'a [PackedEntry],
    kept: &'a [Variant],
}

impl Model for EntryList {
    ghost use Rattle.std.specs.Prelude.{List, length};
    ghost use Rattle.cal_channel.specs.Packed.{AreWithin, all_unpacked};
    ghost use Rattle.cal_channel.specs.declared.shown.ShownEntry.{ShownEntry};

    ghost Value = { List ShownEntry };

    ghost view = { λ l. all_unpacked l.kept.items l.entries.items };

    ghost invariant = { λ l. AreWithin (length l.kept.items) l.entries.items };
}

impl<'a> Model for EntrySlice<'a> {
    ghost use Rattle.std.specs.Prelude.{List};
    ghost use Rattle.cal_channel.specs.Packed.{all_unpacked};
    ghost use Rattle.cal_channel.specs.declared.shown.ShownEntry.{ShownEntry};

    ghost Value = { List ShownEntry };

    ghost view = { λ s. all_unpacked s.kept.now s.entries.now };
}

impl EntryList {
    /// No entry. It takes no memory.
    pub fn new(alloc: Global) -> EntryList
        ensures { result ≡ [] }
    {
        EntryList {
            entries: Vec::new(alloc),
            kept: Vec::new(alloc),
        }
    }

    /// How many entries there are.
    pub fn len(&self) -> usize
        ensures { result ≡ length self.now }
    {
        let _ = &self.kept;
        self.entries.len()
    }

    /// The entries from one place up to another, from 0.
    pub fn between(&self, from: usize, to: usize) -> EntrySlice<'_>
        requires rises { from ≤ to }
        requires within { to ≤ length self.now }
        ensures { result ≡ slice_range self.now from to }
    {
        EntrySlice {
            entries: &self.entries[from..to],
            kept: &self.kept,
        }
    }

    /// Adds a copy of an entry. An `Err` leaves the entries as they were. It takes memory only
    /// where the lists grow, and for texts that aren't the script's.
    pub fn push(&mut self, alloc: Global, entry: &ShownEntry) -> Result<(), OutOfMemory>
        ensures ok { OnOk result (self.new ≡ self.old ++ entry.now ∷ []) }
        ensures err { OnErr result (self.new ≡ self.old) }
    {
        let packed = pack(alloc, entry, &mut self.kept)?;
        self.entries.push(packed)?;
        Ok(())
    }

    /// Leaves the first so many entries.
    pub fn truncate(&mut self, count: usize)
        ensures { self.new ≡ take count self.old }
    {
        let _ = &self.kept;
        self.entries.truncate(count);
    }
}

impl<'a> EntrySlice<'a> {
    /// Adds what the entries mean by the script's values. It takes memory for texts, and where the
    /// list grows. An `Err` leaves some of them added.
    pub fn add_immediates(
        &self,
        alloc: Global,
        script: &Script,
        imms: &mut Vec<Immediate>,
    ) -> Result<(), OutOfMemory>
        ensures { OnOk result (imms.new.items
            ≡ imms.old.items ++ map (immediate_shown script.now.values) self.now) }
    {
        add_all(alloc, script, self.kept, self.entries, imms)
    }
}

/// An entry packed, for which a value may be kept behind the others.
fn pack(
    alloc: Global,
    entry: &ShownEntry,
    kept: &mut Vec<Variant>,
) -> Result<PackedEntry, OutOfMemory>
    ensures grows { IsFront kept.old.items kept.new.items }
    ensures means { IfOk result (λ packed. unpacked kept.new.items packed ≡ entry.now) }
    ensures within { IfOk result (IsWithin (length kept.new.items)) }
{
    let attribute = entry.attribute;
    match &entry.value {
        ShownValue::Opened(place) => Ok(PackedEntry::Opened(attribute, *place)),
        ShownValue::Number(n) => Ok(PackedEntry::Number(attribute, *n)),
        ShownValue::Plain(value) => pack_plain(alloc, attribute, value, kept),
    }
}

/// An entry with another value packed, for which the value may be kept behind the others.
fn pack_plain(
    alloc: Global,
    attribute: AttributeNumber,
    value: &Variant,
    kept: &mut Vec<Variant>,
) -> Result<PackedEntry, OutOfMemory>
    ensures grows { IsFront kept.old.items kept.new.items }
    ensures means { IfOk result (λ packed. unpacked kept.new.items packed
        ≡ record { attribute = attribute; value = shown.Plain value.now }) }
    ensures within { IfOk result (IsWithin (length kept.new.items)) }
{
    match whole(value) {
        Some(n) => Ok(PackedEntry::Whole(attribute, n)),
        None => {
            let place = kept.len();
            kept.push(value.copy(alloc)?)?;
            Ok(PackedEntry::Kept(attribute, place))
        }
    }
}

/// The whole number that a value is, if it is one of 64 bits.
fn whole(value: &Variant) -> Option<i64>
    ensures { IfSome result (λ n. value.now ≡ variant.Int n) }
{
    match value {
        Variant::Int(n) => i64::try_from(*n).ok(),
        _ => None,
    }
}

/// Adds what entries mean by the script's values and by those that are kept.
fn add_all(
    alloc: Global,
    script: &Script,
    kept: &[Variant],
    entries: &[PackedEntry],
    imms: &mut Vec<Immediate>,
) -> Result<(), OutOfMemory>
    ensures { OnOk result (imms.new.items ≡ imms.old.items
        ++ map (immediate_shown script.now.values) (all_unpacked kept.now entries.now)) }
{
    for entry in entries {
        imms.push(immediate(alloc, script, kept, *entry)?)?;
    }
    Ok(())
}

/// What an entry means by the script's values and by those that are kept.
fn immediate(
    alloc: Global,
    script: &Script,
    kept: &[Variant],
    entry: PackedEntry,
) -> Result<Immediate, OutOfMemory>
    ensures { IfOk result (λ imm. imm
        ≡ immediate_shown script.now.values (unpacked kept.now entry)) }
{
    let (attribute, value) = match entry {
        PackedEntry::Opened(attribute, place) => (attribute, opened(alloc, script, place)?),
        PackedEntry::Number(attribute, n) => (attribute, Variant::Uint(n)),
        PackedEntry::Whole(attribute, n) => (attribute, Variant::Int(i128::from(n))),
        PackedEntry::Kept(attribute, place) => (attribute, kept_value(alloc, kept, place)?),
    };
    Ok(Immediate { attribute, value })
}

/// The kept value at a place.
fn kept_value(alloc: Global, kept: &[Variant], place: usize) -> Result<Variant, OutOfMemory>
    ensures { IfOk result (λ value. value ≡ slice_index_or kept.now place no_value) }
{
    match kept.get(place) {
        Some(value) => value.copy(alloc),
        None => Ok(Variant::Bool(false)),
    }
}
