ghost use Rattle.std.specs.Prelude.{◌≡◌, ◌≤◌, List, [], length, take, IfOk};
ghost use Rattle.cal_read.specs.Held.{AreHeld, HoldsSome};
ghost use Rattle.cal_read.specs.Known.{SpellsIds};
ghost use Rattle.cal_read.specs.Nodes.{Named};
ghost use Rattle.cal_read.specs.Usual.{IsLineEnd, IsUsualRow};
ghost use Rattle.cal_read.specs.UsualValues.{ReadsAttributes};

use crate::nodes::Nodes;
use crate::record_line::Columns;
use crate::usual::{Unusual, behind};
use crate::usual_columns::{push_ids_at, read_head};
use crate::usual_values::put_values_at;
use cal_context::{Context, Immediate, Snapshot};
use std::alloc::Global;

/// Reads a row in one go from a line like `__rec=ctx,ref=7,attr=8=9,data=a=b`, in which nothing is
/// escaped. An `Err` says nothing of the line.
pub(crate) fn read_usual_row(
    alloc: Global,
    nodes: &Nodes,
    columns: &mut Columns,
    line: &str,
    context: &Context,
    snapshot: &mut Snapshot,
) -> Result<(), Unusual>
    requires { HoldsSome context.now nodes.now }
    ensures { IfOk result (λ _. (named : List Named) → AreHeld context.now nodes.now named
        → IsUsualRow context.now named line.now snapshot.new) }
{
    let end = read_front_row(alloc, nodes, columns, line, context, snapshot)?;
    if end < line.len() {
        return Err(Unusual);
    }
    Ok(())
}

/// Reads such a row from the front of a text, and answers where it ends.
#[inline(never)]
pub(crate) fn read_front_row(
    alloc: Global,
    nodes: &Nodes,
    columns: &mut Columns,
    text: &str,
    context: &Context,
    snapshot: &mut Snapshot,
) -> Result<usize, Unusual>
    requires { HoldsSome context.now nodes.now }
    ensures line { IfOk result (IsLineEnd text.now) }
    ensures row { IfOk result (λ end. (named : List Named) → AreHeld context.now nodes.now named
        → IsUsualRow context.now named (take end text.now) snapshot.new) }
{
    snapshot.nodes.clear();
    let head = read_head(nodes, text, &mut snapshot.nodes)?;
    let start = behind(text, head, b"attr")?;
    read_attributes(
        alloc,
        nodes,
        columns,
        text,
        start,
        context,
        &mut snapshot.imms,
    )
}

/// Reads the attributes at a place and their values, which become the immediates, and answers where
/// these end. Ids of attributes that a row had lately aren't read again.
fn read_attributes(
    alloc: Global,
    nodes: &Nodes,
    columns: &mut Columns,
    line: &str,
    start: usize,
    context: &Context,
    imms: &mut Vec<Immediate>,
) -> Result<usize, Unusual>
    requires start { start ≤ length line.now }
    requires held { HoldsSome context.now nodes.now }
    ensures { IfOk result (λ end.
        ReadsAttributes context.now nodes.now line.now start end imms.new.items) }
{
    let lately = &columns.lately;
    let spare = &mut columns.spare;
    if let Some(known) = lately.at(line, start) {
        if let Ok(place) = known.values_in(line, start) {
            return put_values_at(alloc, nodes, context, &known.ids, line, place, spare, imms);
        }
    }
    read_others(alloc, nodes, columns, line, start, context, imms)
}

/// The same of ids that no row had lately.
#[inline(never)]
fn read_others(
    alloc: Global,
    nodes: &Nodes,
    columns: &mut Columns,
    line: &str,
    start: usize,
    context: &Context,
    imms: &mut Vec<Immediate>,
) -> Result<usize, Unusual>
    requires start { start ≤ length line.now }
    requires held { HoldsSome context.now nodes.now }
    ensures { IfOk result (λ end.
        ReadsAttributes context.now nodes.now line.now start end imms.new.items) }
{
    let mut ids = Vec::new(alloc);
    let last = push_ids_at(line, start, &mut ids)?;
    if last == start {
        return Err(Unusual);
    }
    let place = behind(line, last, b",data")?;
    let spare = &mut columns.spare;
    let end = put_values_at(alloc, nodes, context, &ids, line, place, spare, imms)?;
    columns.lately.note(alloc, line, start, last, ids)?;
    Ok(end)
}
