ghost use Rattle.std.specs.Prelude.{OnOk, ◌≡◌, List, IfOk};
ghost use Rattle.cal_context.specs.Tree.{Grows};
ghost use Rattle.cal_line.specs.declared.field.Field.{Field};
ghost use Rattle.cal_read.specs.Lines.{bytes_in};
ghost use Rattle.cal_read.specs.Standing.{ReadsBy, ReadsFront, Stands, StandsForSome, standing};
ghost use Rattle.cal_read.specs.Steps.{AnswersFor};
ghost use Rattle.cal_read.specs.Stream as streams;

use crate::StreamKind;
use crate::built_in::built_in_nodes;
use crate::end::LineEnd;
use crate::keys::repeats_key;
use crate::line::Line;
use crate::node_line::{add_node, read_node};
use crate::nodes::Nodes;
use crate::recent::Recent;
use crate::record_line::{Columns, read_record};
use crate::sort::{Sort, sort_of};
use crate::usual_node::usual_node;
use crate::usual_row::{read_front_row, read_usual_row};
use cal_context::{Context, Snapshot, Taker};
use cal_line::{FieldEnd, Fields, Splitter};
use cal_value::OutOfMemory;
use std::alloc::Global;

/// What the lines so far have made, beside the rows, which are taken; and what serves for line
/// after line.
#[derive(Drop)]
pub(crate) struct Stream {
    nodes: Nodes,
    pub(crate) globals: Snapshot,
    columns: Columns,
    row: Snapshot,
    recent: Recent,
}

impl Stream {
    /// What there is before the first line.
    pub(crate) fn new(alloc: Global, context: &mut Context) -> Result<Stream, OutOfMemory>
        ensures grows { Grows context.old context.new }
        ensures begun { IfOk result (λ held. Stands context.new held streams.no_lines) }
    {
        Ok(Stream {
            nodes: built_in_nodes(alloc, context)?,
            globals: Snapshot::new(alloc),
            columns: Columns::new(alloc),
            row: Snapshot::new(alloc),
            recent: Recent::new(alloc),
        })
    }

    /// Reads the next line. After an `Err` the stream is of no more use.
    #[inline(always)]
    pub(crate) fn read_line<T: Taker>(
        &mut self,
        alloc: Global,
        splitter: &mut Splitter,
        line: Line,
        context: &mut Context,
        taker: &mut T,
    ) -> Result<(), LineEnd>
        requires { StandsForSome context.old self.old }
        ensures grows { Grows context.old context.new }
        ensures read { ReadsBy (λ s. streams.line_step s (bytes_in line.entry))
            (standing T.has_taken context.old self.old taker.old)
            (standing T.has_taken context.new self.new taker.new) result }
        ensures about { OnOk result (T.about taker.new ≡ T.about taker.old) }
    {
        match line {
            Line::Bytes(line) => self.read_bytes(alloc, splitter, line, context, taker),
            Line::Text(line) => self.read_str(alloc, splitter, line, context, taker),
        }
    }

    /// Reads the row that stands in the usual form at the front of a text, where a newline ends it:
    /// it is taken, and where it ends is answered. After an `Err` the stream is of no more use.
    #[inline(always)]
    pub(crate) fn read_front<T: Taker>(
        &mut self,
        alloc: Global,
        text: &str,
        context: &Context,
        taker: &mut T,
    ) -> Result<Option<usize>, OutOfMemory>
        requires { StandsForSome context.now self.old }
        ensures read { IfOk result (ReadsFront text.now
            (standing T.has_taken context.now self.old taker.old)
            (standing T.has_taken context.now self.new taker.new)) }
        ensures about { OnOk result (T.about taker.new ≡ T.about taker.old) }
    {
        let Ok(end) = read_front_row(
            alloc,
            &self.nodes,
            &mut self.columns,
            text,
            context,
            &mut self.row,
        ) else {
            return Ok(None);
        };
        if end == text.len() || text.as_bytes()[end] != b'\n' {
            return Ok(None);
        }
        taker.take(context, &self.row)?;
        Ok(Some(end))
    }

    #[inline(never)]
    fn read_bytes<T: Taker>(
        &mut self,
        alloc: Global,
        splitter: &mut Splitter,
        line: &[u8],
        context: &mut Context,
        taker: &mut T,
    ) -> Result<(), LineEnd>
        requires { StandsForSome context.old self.old }
        ensures grows { Grows context.old context.new }
        ensures read { ReadsBy (λ s. streams.line_step s line.now)
            (standing T.has_taken context.old self.old taker.old)
            (standing T.has_taken context.new self.new taker.new) result }
        ensures about { OnOk result (T.about taker.new ≡ T.about taker.old) }
    {
        match std::str::from_utf8(line) {
            Ok(text) => self.read_str(alloc, splitter, text, context, taker),
            Err(_) => Err(LineEnd::Bad(StreamKind::NotText)),
        }
    }

    #[inline(always)]
    fn read_str<T: Taker>(
        &mut self,
        alloc: Global,
        splitter: &mut Splitter,
        line: &str,
        context: &mut Context,
        taker: &mut T,
    ) -> Result<(), LineEnd>
        requires { StandsForSome context.old self.old }
        ensures grows { Grows context.old context.new }
        ensures read { ReadsBy (λ s. streams.line_step s line.now)
            (standing T.has_taken context.old self.old taker.old)
            (standing T.has_taken context.new self.new taker.new) result }
        ensures about { OnOk result (T.about taker.new ≡ T.about taker.old) }
    {
        if line.is_empty() {
            return Ok(());
        }
        self.read_text(alloc, splitter, line, context, taker)
    }

    #[inline(always)]
    fn read_text<T: Taker>(
        &mut self,
        alloc: Global,
        splitter: &mut Splitter,
        line: &str,
        context: &mut Context,
        taker: &mut T,
    ) -> Result<(), LineEnd>
        requires { StandsForSome context.old self.old }
        ensures grows { Grows context.old context.new }
        ensures read { ReadsBy (λ s. streams.step_by_list s line.now)
            (standing T.has_taken context.old self.old taker.old)
            (standing T.has_taken context.new self.new taker.new) result }
        ensures about { OnOk result (T.about taker.new ≡ T.about taker.old) }
    {
        match read_usual_row(
            alloc,
            &self.nodes,
            &mut self.columns,
            line,
            context,
            &mut self.row,
        ) {
            Ok(()) => Ok(taker.take(context, &self.row)?),
            Err(_) => self.read_other(alloc, splitter, line, context, taker),
        }
    }

    #[inline(never)]
    fn read_other<T: Taker>(
        &mut self,
        alloc: Global,
        splitter: &mut Splitter,
        line: &str,
        context: &mut Context,
        taker: &mut T,
    ) -> Result<(), LineEnd>
        requires { StandsForSome context.old self.old }
        ensures grows { Grows context.old context.new }
        ensures read { ReadsBy (λ s. streams.step_by_list s line.now)
            (standing T.has_taken context.old self.old taker.old)
            (standing T.has_taken context.new self.new taker.new) result }
        ensures about { OnOk result (T.about taker.new ≡ T.about taker.old) }
    {
        match usual_node(line) {
            Ok(node) => {
                let recent = &mut self.recent;
                add_node(
                    alloc,
                    &mut self.nodes,
                    recent,
                    &node.ids,
                    node.text,
                    context,
                )
            }
            Err(_) => self.read_split(alloc, splitter, line, context, taker),
        }
    }

    /// Reads a line field by field.
    fn read_split<T: Taker>(
        &mut self,
        alloc: Global,
        splitter: &mut Splitter,
        line: &str,
        context: &mut Context,
        taker: &mut T,
    ) -> Result<(), LineEnd>
        requires { StandsForSome context.old self.old }
        ensures grows { Grows context.old context.new }
        ensures read { ReadsBy (λ s. streams.step_by_list s line.now)
            (standing T.has_taken context.old self.old taker.old)
            (standing T.has_taken context.new self.new taker.new) result }
        ensures about { OnOk result (T.about taker.new ≡ T.about taker.old) }
    {
        match splitter.split(line) {
            Ok(fields) => self.read_fields(alloc, &fields, context, taker),
            Err(FieldEnd::BadField) => Err(LineEnd::Bad(StreamKind::BadField)),
            Err(FieldEnd::OutOfMemory) => Err(LineEnd::OutOfMemory),
        }
    }

    fn read_fields<T: Taker>(
        &mut self,
        alloc: Global,
        fields: &Fields,
        context: &mut Context,
        taker: &mut T,
    ) -> Result<(), LineEnd>
        requires { StandsForSome context.old self.old }
        ensures grows { Grows context.old context.new }
        ensures read { ReadsBy (λ s. streams.step_by_fields s fields.now)
            (standing T.has_taken context.old self.old taker.old)
            (standing T.has_taken context.new self.new taker.new) result }
        ensures about { OnOk result (T.about taker.new ≡ T.about taker.old) }
    {
        if repeats_key(alloc, context.seeds(), fields)? {
            return Err(LineEnd::Bad(StreamKind::BadField));
        }
        match sort_of(alloc, fields)? {
            Sort::OfNode => read_node(alloc, &mut self.nodes, &mut self.recent, fields, context),
            Sort::OfRow => self.read_row(alloc, fields, context, taker),
            Sort::OfGlobals => self.read_globals(alloc, fields, context),
        }
    }

    /// Reads a `ctx` line, and has its row taken.
    fn read_row<T: Taker>(
        &mut self,
        alloc: Global,
        fields: &Fields,
        context: &Context,
        taker: &mut T,
    ) -> Result<(), LineEnd>
        requires { StandsForSome context.now self.old }
        ensures read { ReadsBy (λ s. streams.step_by_sort s fields.now Sort.OfRow)
            (standing T.has_taken context.now self.old taker.old)
            (standing T.has_taken context.now self.new taker.new) result }
        ensures about { OnOk result (T.about taker.new ≡ T.about taker.old) }
    {
        read_record(
            alloc,
            &self.nodes,
            &mut self.columns,
            fields,
            context,
            &mut self.row,
        )?;
        taker.take(context, &self.row)?;
        Ok(())
    }

    /// Reads a `globals` line, and adds to the globals.
    fn read_globals(
        &mut self,
        alloc: Global,
        fields: &Fields,
        context: &Context,
    ) -> Result<(), LineEnd>
        requires { StandsForSome context.now self.old }
        ensures read { (s : streams.Stream) → Stands context.now self.old s → AnswersFor
            (λ _ after. Stands context.now self.new after × (after.rows ≡ s.rows))
            result (streams.step_by_sort s fields.now Sort.OfGlobals) }
    {
        read_record(
            alloc,
            &self.nodes,
            &mut self.columns,
            fields,
            context,
            &mut self.row,
        )?;
        self.globals.nodes.append(&mut self.row.nodes)?;
        self.globals.imms.append(&mut self.row.imms)?;
        Ok(())
    }
}
