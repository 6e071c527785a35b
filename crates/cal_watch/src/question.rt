//! One record, written over for each entry that is asked about.
ghost use Rattle.std.specs.Prelude.{◌≡◌, ◌≤◌, [], length, IfOk, OnOk};
ghost use Rattle.cal_watch.specs.Asking.{of_entry};

use cal_value::{Attribute, Entry, OutOfMemory, Rec, Seq, TryCopy, Variant};
use std::alloc::Global;

/// A record of at most one entry. An entry of the attribute of the last one is written over it, and
/// nothing of the attribute is copied then.
#[derive(Drop)]
pub(crate) struct Question {
    alloc: Global,
    pub rec: Rec,
    ghost pathless: { rec.paths ≡ [] },
    ghost alone: { length rec.imms ≤ 1 },
}

impl Question {
    /// A record of no entry. It takes no memory.
    pub fn new(alloc: Global) -> Question {
        Question {
            alloc,
            rec: Rec {
                paths: Seq::new(alloc),
                imms: Seq::new(alloc),
            },
        }
    }

    /// Makes the record that of this entry alone.
    pub fn write(&mut self, attribute: &Attribute, value: &Variant) -> Result<(), OutOfMemory>
        ensures { OnOk result (self.new.rec
            ≡ of_entry (record { attr = attribute.now; value = value.now })) }
    {
        let last = self.rec.imms.pop();
        let entry = Entry {
            attr: attribute_by(self.alloc, last, attribute)?,
            value: value.copy(self.alloc)?,
        };
        self.rec.imms.push(entry)?;
        Ok(())
    }
}

/// The attribute, which is copied where the last entry has another one.
fn attribute_by(
    alloc: Global,
    last: Option<Entry>,
    attribute: &Attribute,
) -> Result<Attribute, OutOfMemory>
    ensures { IfOk result (λ own. own ≡ attribute.now) }
{
    if let Some(entry) = last {
        let Entry { attr, value } = entry;
        drop(value);
        if attr == *attribute {
            return Ok(attr);
        }
        drop(attr);
    }
    attribute.copy(alloc)
}
