ghost use Rattle.std.specs.Prelude.{◌≡◌, ◌+◌, [], ◌∷◌, length, IfOk, OnOk};
ghost use Rattle.cal_context.specs.Snapshots.{IsIn, meaning};
ghost use Rattle.cal_context.specs.Taking.{TakesMore};
ghost use Rattle.cal_context.specs.Tree.{Tree};

use crate::Writer;
use crate::snapshot_needs::has_no_entry;
use cal_context::{Context, Snapshot, Taker};
use cal_seeds::Seeds;
use cal_value::OutOfMemory;
use std::alloc::Global;

/// How much a writer would write: so many rows, and so many bytes with the globals behind them.
#[derive(Clone, Copy, Debug, PartialEq, Eq)]
pub struct Measure {
    pub rows: u64,
    pub bytes: u64,
}

/// Counts rows as they come, and the bytes of their text, of which it keeps at most a record's.
#[derive(Drop)]
pub struct Measurer {
    writer: Writer,
    so_far: Measure,
}

impl Measurer {
    ghost use Rattle.cal_write.specs.Measuring.{CountsBytes, HasMeasured, MeasuresWith};

    /// Nothing is counted yet. Its map hashes by numbers that everybody knows.
    pub fn new(alloc: Global) -> Result<Measurer, OutOfMemory>
        ensures { IfOk result (λ measurer. (t : Tree) → HasMeasured measurer t []) }
    {
        Measurer::seeded(alloc, Seeds::fixed())
    }

    /// Nothing is counted yet, and its map hashes by the seeds of a run.
    pub fn seeded(alloc: Global, seeds: Seeds) -> Result<Measurer, OutOfMemory>
        ensures { IfOk result (λ measurer. (t : Tree) → HasMeasured measurer t []) }
    {
        Ok(Measurer {
            writer: Writer::seeded(alloc, seeds)?,
            so_far: Measure { rows: 0, bytes: 0 },
        })
    }

    /// How much the rows are that were taken, with the globals behind them.
    pub fn finish(self, context: &Context, globals: &Snapshot) -> Result<Measure, OutOfMemory>
        requires { IsIn context.now globals.now }
        ensures { IfOk result
            (MeasuresWith (HasMeasured self context.now) (meaning context.now globals.now)) }
    {
        let mut measurer = self;
        measurer.with_globals(context, globals)
    }

    /// How much there is with globals, if they have an entry.
    fn with_globals(
        &mut self,
        context: &Context,
        globals: &Snapshot,
    ) -> Result<Measure, OutOfMemory>
        requires { IsIn context.now globals.now }
        ensures { IfOk result (MeasuresWith (HasMeasured self.old context.now)
            (meaning context.now globals.now)) }
    {
        context.has_each_once();
        if has_no_entry(globals) {
            return Ok(self.so_far);
        }
        self.count(context, "globals", globals)?;
        Ok(self.so_far)
    }

    /// Counts the bytes of a record and of what is new with it.
    fn count(
        &mut self,
        context: &Context,
        sort: &str,
        snapshot: &Snapshot,
    ) -> Result<(), OutOfMemory>
        requires { IsIn context.now snapshot.now }
        ensures counted { OnOk result (CountsBytes context.now self.old self.new sort.now
            (meaning context.now snapshot.now)) }
        ensures rows { self.new.so_far.rows ≡ self.old.so_far.rows }
    {
        self.writer.write(context, sort, snapshot)?;
        let text = &mut self.writer.nodes.stream.lines.text;
        let more = text.len() as u64;
        text.clear();
        self.so_far.bytes = sum(self.so_far.bytes, more)?;
        Ok(())
    }
}

impl Taker for Measurer {
    ghost use Rattle.cal_write.specs.Measuring.{HasMeasured, HasMeasured-stays};

    ghost about = { λ _. tt };

    ghost has_taken = { HasMeasured };

    /// Counts the next row.
    fn take(&mut self, context: &Context, snapshot: &Snapshot) -> Result<(), OutOfMemory>
        requires { IsIn context.now snapshot.now }
        ensures { OnOk result (TakesMore
            (HasMeasured self.old context.now)
            (HasMeasured self.new context.now)
            (meaning context.now snapshot.now ∷ [])) }
    {
        self.count(context, "ctx", snapshot)?;
        self.so_far.rows = sum(self.so_far.rows, 1)?;
        Ok(())
    }

    ghost stays = { HasMeasured-stays };
}

/// A sum, for which 64 bits are always enough: nothing of that size is in memory.
fn sum(one: u64, other: u64) -> Result<u64, OutOfMemory>
    ensures { IfOk result (λ sum. sum ≡ one + other) }
{
    one.checked_add(other).ok_or(OutOfMemory)
}
