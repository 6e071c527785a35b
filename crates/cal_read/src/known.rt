ghost use Rattle.std.specs.Prelude.{◌≡◌, ◌≢◌, ◌≤◌, [], IfOk, Ok, length};
ghost use Rattle.cal_read.specs.Fields.{each, id_of};
ghost use Rattle.cal_read.specs.Known.{NamesIds, SpellsIds, texts_in};
ghost use Rattle.cal_read.specs.Usual.{written_values};

use crate::usual::{Unusual, behind};
use cal_value::OutOfMemory;
use std::alloc::Global;

/// The values of a field `attr` as a row wrote them, and the ids that they are.
#[derive(Drop)]
pub(crate) struct Known {
    text: Vec<u8>,
    pub(crate) ids: Vec<u64>,
    ghost written: { written_values (texts_in text.items) ≡ text.items },
    ghost some: { texts_in text.items ≢ [] },
    ghost read: { each id_of (texts_in text.items) ≡ Ok ids.items },
}

impl Known {
    /// What stands between two places.
    pub(crate) fn of(
        alloc: Global,
        line: &str,
        start: usize,
        end: usize,
        ids: Vec<u64>,
    ) -> Result<Known, OutOfMemory>
        requires order { start ≤ end }
        requires within { end ≤ length line.now }
        requires spelled { SpellsIds line.now start end ids.items }
    {
        let text = line.as_bytes()[start..end].to_vec(alloc)?;
        Ok(Known { text, ids })
    }

    /// Where the values of the row begin, if the same stands at a place of its line.
    pub(crate) fn values_in(&self, line: &str, start: usize) -> Result<usize, Unusual>
        requires { start ≤ length line.now }
        ensures { IfOk result (λ end. NamesIds line.now start end self.now.ids.items) }
    {
        let last = behind(line, start, self.text.as_slice())?;
        behind(line, last, b",data")
    }
}
