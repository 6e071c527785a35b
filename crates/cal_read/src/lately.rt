ghost use Rattle.std.specs.Prelude.{◌≤◌, length};
ghost use Rattle.cal_read.specs.Known.{SpellsIds};

use crate::known::Known;
use cal_value::OutOfMemory;
use std::alloc::Global;

/// What rows had in `attr` lately, each at a place that its first bytes give.
#[derive(Drop)]
pub(crate) struct Lately {
    known: Vec<Option<Known>>,
}

impl Lately {
    /// Nothing. It takes no memory.
    pub(crate) fn new(alloc: Global) -> Lately {
        Lately {
            known: Vec::new(alloc),
        }
    }

    /// What may stand at a place of a line.
    pub(crate) fn at(&self, line: &str, start: usize) -> Option<&Known>
        requires { start ≤ length line.now }
    {
        let place = place_of(line, start);
        self.known.as_slice().get(place)?.as_ref()
    }

    /// Keeps the ids that stand between two places of a line.
    pub(crate) fn note(
        &mut self,
        alloc: Global,
        line: &str,
        start: usize,
        end: usize,
        ids: Vec<u64>,
    ) -> Result<(), OutOfMemory>
        requires order { start ≤ end }
        requires within { end ≤ length line.now }
        requires spelled { SpellsIds line.now start end ids.items }
    {
        let known = Known::of(alloc, line, start, end, ids)?;
        let place = place_of(line, start);
        while self.known.len() <= place {
            self.known.push(None)?;
        }
        self.known[place] = Some(known);
        Ok(())
    }
}

/// The place of what stands at a place of a line, by its first eight bytes.
fn place_of(line: &str, start: usize) -> usize
    requires { start ≤ length line.now }
{
    let bytes = &line.as_bytes()[start..];
    if bytes.len() < 9 {
        return 0;
    }
    let word = u64::from_le_bytes([
        bytes[1], bytes[2], bytes[3], bytes[4], bytes[5], bytes[6], bytes[7], bytes[8],
    ]);
    (word.wrapping_mul(0x9E37_79B9_7F4A_7C15) >> 59) as usize
}
