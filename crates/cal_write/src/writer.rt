ghost use Rattle.std.specs.Prelude.{◌≡◌, [], ◌∷◌, IfOk, IsErr, OnErr, OnOk};
ghost use Rattle.cal_context.specs.Snapshots.{IsIn, meaning};
ghost use Rattle.cal_context.specs.Taking.{TakesMore};
ghost use Rattle.cal_context.specs.Tree.{Tree};

use crate::id_fields::IdFields;
use crate::lines::write_record;
use crate::node_writer::NodeWriter;
use crate::snapshot_needs::{has_no_entry, need_immediates, need_nodes};
use cal_context::{Context, Snapshot, Taker};
use cal_seeds::Seeds;
use cal_value::{OutOfMemory, Text};
use std::alloc::Global;

/// Writes records as they come, as snapshots over a context. A record takes time in its nodes and
/// immediates and in what is new with it, however deep its paths are.
#[derive(Drop)]
pub struct Writer {
    pub(crate) nodes: NodeWriter,
    // the ids of a record's nodes, and of its immediates' attributes
    refs: Vec<u32>,
    columns: Vec<u32>,
    fields: IdFields,
    // memory was refused
    refused: bool,
}

impl Writer {
    ghost use Rattle.cal_write.specs.Writer.{EndsWith, HasTaken, IsRefused, WritesRecord};

    /// A writer of no record yet. Its map hashes by numbers that everybody knows.
    pub fn new(alloc: Global) -> Result<Writer, OutOfMemory>
        ensures { IfOk result (λ writer. (t : Tree) → HasTaken writer t []) }
    {
        Writer::seeded(alloc, Seeds::fixed())
    }

    /// A writer of no record yet, whose map hashes by the seeds of a run.
    pub fn seeded(alloc: Global, seeds: Seeds) -> Result<Writer, OutOfMemory>
        ensures { IfOk result (λ writer. (t : Tree) → HasTaken writer t []) }
    {
        Ok(Writer {
            nodes: NodeWriter::new(alloc, seeds)?,
            refs: Vec::new(alloc),
            columns: Vec::new(alloc),
            fields: IdFields::new(alloc)?,
            refused: false,
        })
    }

    /// The text of what was taken, and of the globals behind it, if they have an entry. A writer
    /// that ran out of memory gives none.
    pub fn finish(self, context: &Context, globals: &Snapshot) -> Result<Text, OutOfMemory>
        requires { IsIn context.now globals.now }
        ensures text { IfOk result
            (EndsWith (HasTaken self context.now) (meaning context.now globals.now)) }
        ensures again { IsRefused self → IsErr result }
    {
        let mut writer = self;
        writer.write_globals(context, globals)?;
        Ok(writer.nodes.stream.lines.text.into_text())
    }

    /// Writes globals behind the rows, if they have an entry.
    fn write_globals(&mut self, context: &Context, globals: &Snapshot) -> Result<(), OutOfMemory>
        requires { IsIn context.now globals.now }
        ensures text { OnOk result (EndsWith (HasTaken self.old context.now)
            (meaning context.now globals.now) self.new.nodes.stream.lines.text) }
        ensures again { IsRefused self.old → IsErr result }
    {
        context.has_each_once();
        if self.refused {
            return Err(OutOfMemory);
        }
        if has_no_entry(globals) {
            return Ok(());
        }
        self.write(context, "globals", globals)?;
        Ok(())
    }

    /// Writes what a snapshot's record needs, and its line.
    pub(crate) fn write(
        &mut self,
        context: &Context,
        sort: &str,
        snapshot: &Snapshot,
    ) -> Result<(), OutOfMemory>
        requires { IsIn context.now snapshot.now }
        ensures written { OnOk result (WritesRecord context.now self.old.nodes self.new.nodes
            sort.now (meaning context.now snapshot.now)) }
        ensures same { self.new.refused ≡ self.old.refused }
    {
        need_nodes(&mut self.nodes, context, &snapshot.nodes, &mut self.refs)?;
        need_immediates(&mut self.nodes, context, &snapshot.imms, &mut self.columns)?;
        write_record(
            &mut self.nodes.stream.lines.text,
            &mut self.fields,
            sort,
            &self.refs,
            &self.columns[..snapshot.imms.len()],
            &snapshot.imms,
        )?;
        Ok(())
    }
}

impl Taker for Writer {
    ghost use Rattle.cal_write.specs.Writer.{HasTaken, IsRefused};
    ghost use Rattle.cal_write.specs.WriterGrows.{HasTaken-stays};

    ghost about = { λ _. tt };

    ghost has_taken = { HasTaken };

    /// Writes the next record. After an `Err` the writer refuses.
    fn take(&mut self, context: &Context, snapshot: &Snapshot) -> Result<(), OutOfMemory>
        requires { IsIn context.now snapshot.now }
        ensures taken { OnOk result (TakesMore
            (HasTaken self.old context.now)
            (HasTaken self.new context.now)
            (meaning context.now snapshot.now ∷ [])) }
        ensures refused { OnErr result (IsRefused self.new) }
        ensures again { IsRefused self.old → IsErr result }
    {
        if self.refused {
            return Err(OutOfMemory);
        }
        match self.write(context, "ctx", snapshot) {
            Ok(()) => Ok(()),
            Err(error) => {
                self.refused = true;
                Err(error)
            }
        }
    }

    ghost stays = { HasTaken-stays };
}
