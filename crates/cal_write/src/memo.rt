ghost use Rattle.std.specs.Prelude.{◌≡◌, ◌==◌, ℕ, Some, [], OnOk, if◌then◌else◌};
ghost use Rattle.std.specs.Prelude.{slice_index_or};
ghost use Rattle.cal_write.specs.Memo.{memo_at};

use cal_value::OutOfMemory;
use std::alloc::Global;
use std::marker::Model;

/// The ids that are known, beside the numbers of a context.
#[derive(Drop)]
pub(crate) struct Memo {
    // each id plus one, and 0 for none: half as many bytes as options take
    successors: Vec<u32>,
}

impl Model for Memo {
    ghost use Rattle.std.specs.Prelude.{ℕ, List, Option, map};
    ghost use Rattle.cal_write.specs.Memo.{before};

    ghost Value = { List (Option ℕ) };

    ghost view = { λ m. map before m.successors.items };
}

impl Memo {
    /// No id is known.
    pub(crate) fn new(alloc: Global) -> Memo
        ensures { result ≡ [] }
    {
        Memo {
            successors: Vec::new(alloc),
        }
    }

    pub(crate) fn get(&self, number: u32) -> Option<u32>
        ensures { result ≡ memo_at self.now number }
    {
        let successor = self.successors.get(number as usize).copied();
        successor.unwrap_or(0).checked_sub(1)
    }

    /// Notes an id, and leaves the others.
    pub(crate) fn set(&mut self, number: u32, id: u32) -> Result<(), OutOfMemory>
        ensures { OnOk result ((k : ℕ) →
            memo_at self.new k ≡ (if number == k then Some id else memo_at self.old k)) }
    {
        let Some(successor) = id.checked_add(1) else {
            return Err(OutOfMemory);
        };
        put_at(&mut self.successors, number, successor)?;
        Ok(())
    }
}

/// Puts a number at a place, with 0 in all that are new before it.
fn put_at(list: &mut Vec<u32>, place: u32, number: u32) -> Result<(), OutOfMemory>
    ensures { OnOk result ((k : ℕ) → slice_index_or list.new.items k 0
        ≡ (if place == k then number else slice_index_or list.old.items k 0)) }
{
    let at = place as usize;
    if list.len() <= at {
        list.resize(at + 1, 0)?;
    }
    list[at] = number;
    Ok(())
}
