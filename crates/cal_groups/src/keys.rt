//! The key of a row as a snapshot of a context.
ghost use Rattle.std.specs.Prelude.{◌≡◌, [], map, OnOk};
ghost use Rattle.cal_groups.specs.Keys.{immediate_of};

use cal_context::{AttributeNumber, Immediate, NodeNumber, Snapshot};
use cal_snap::NumberedEntry;
use cal_value::{OutOfMemory, Seq, TryCopy};
use std::alloc::Global;

/// Puts the numbers of a key's nodes and the key's entries into a snapshot, in place of what was
/// there. It takes memory for the texts among the entries, and where the snapshot has no room yet.
pub(crate) fn put_key(
    alloc: Global,
    numbers: &[NodeNumber],
    entries: &Seq<NumberedEntry>,
    snapshot: &mut Snapshot,
) -> Result<(), OutOfMemory>
    ensures nodes { OnOk result (snapshot.new.nodes.items ≡ numbers.now) }
    ensures imms { OnOk result (snapshot.new.imms.items ≡ map immediate_of entries.now) }
{
    snapshot.clear();
    snapshot.nodes.extend_from_slice(numbers)?;
    put_entries(alloc, entries.as_slice(), &mut snapshot.imms)?;
    Ok(())
}

fn put_entries(
    alloc: Global,
    entries: &[NumberedEntry],
    imms: &mut Vec<Immediate>,
) -> Result<(), OutOfMemory>
    requires { imms.old.items ≡ [] }
    ensures { OnOk result (imms.new.items ≡ map immediate_of entries.now) }
{
    for entry in entries {
        let value = entry.value.copy(alloc)?;
        imms.push(Immediate {
            attribute: AttributeNumber(entry.attribute),
            value,
        })?;
    }
    Ok(())
}
