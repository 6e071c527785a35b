ghost use Rattle.std.specs.Prelude.{◌≡◌, ◌<◌, ◌++◌, length, map, take, All, IfOk, OnOk};
ghost use Rattle.cal_board.specs.PathBoards.{AreKnown, entries_of, entry_in, last_entries};

use crate::{Opened, Slot};
use cal_value::{Attribute, Entry, OutOfMemory, Seq, TryCopy, Variant};
use std::alloc::Global;

/// The entry of an open value.
pub(crate) fn entry_of(
    alloc: Global,
    attrs: &[Attribute],
    opened: &Opened<Variant>,
) -> Result<Entry, OutOfMemory>
    requires { opened.now.attribute < length attrs.now }
    ensures { IfOk result (λ entry. entry ≡ entry_in attrs.now opened.now) }
{
    Ok(Entry {
        attr: attrs[opened.attribute as usize].copy(alloc)?,
        value: opened.value.copy(alloc)?,
    })
}

/// Adds the path of each slot. An `Err` may leave some behind what was there.
pub(crate) fn add_paths(
    alloc: Global,
    attrs: &[Attribute],
    slots: &[Slot<Variant>],
    out: &mut Vec<Seq<Entry>>,
) -> Result<(), OutOfMemory>
    requires { All (λ slot. AreKnown attrs.now slot.opened) slots.now }
    ensures ok { OnOk result (out.new.items ≡ out.old.items ++ entries_of attrs.now slots.now) }
    ensures front { take (length out.old.items) out.new.items ≡ out.old.items }
{
    for slot in slots {
        let path = path_of(alloc, attrs, slot.opened.as_slice())?;
        out.push(path)?;
    }
    Ok(())
}

fn path_of(
    alloc: Global,
    attrs: &[Attribute],
    opened: &[Opened<Variant>],
) -> Result<Seq<Entry>, OutOfMemory>
    requires { AreKnown attrs.now opened.now }
    ensures { IfOk result (λ path. path ≡ map (entry_in attrs.now) opened.now) }
{
    let mut path = Vec::with_capacity(alloc, opened.len())?;
    for value in opened {
        path.push(entry_of(alloc, attrs, value)?)?;
    }
    Ok(Seq::from_vec(path))
}

/// Adds the last value of each slot. An `Err` may leave some behind what was there.
pub(crate) fn add_last_entries(
    alloc: Global,
    attrs: &[Attribute],
    slots: &[Slot<Variant>],
    out: &mut Vec<Entry>,
) -> Result<(), OutOfMemory>
    requires { All (λ slot. AreKnown attrs.now slot.opened) slots.now }
    ensures ok { OnOk result (out.new.items ≡ out.old.items ++ last_entries attrs.now slots.now) }
    ensures front { take (length out.old.items) out.new.items ≡ out.old.items }
{
    for slot in slots {
        if let Some(last) = slot.opened.as_slice().last() {
            out.push(entry_of(alloc, attrs, last)?)?;
        }
    }
    Ok(())
}
