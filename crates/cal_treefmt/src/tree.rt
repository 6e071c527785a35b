ghost use Rattle.std.specs.Prelude.{◌≡◌, ◌++◌, List, map, length, suc, IfOk, OnOk};
ghost use Rattle.std.specs.List.{All, flat_map};
ghost use Rattle.cal_rowset.specs.declared.rowset.Column as columns;
ghost use Rattle.cal_tabfmt.specs.Grid.{grid_line};
ghost use Rattle.cal_treefmt.specs.Lines as lines;
ghost use Rattle.cal_treefmt.specs.Plans.{IsPlan, IsWithin, shown};
ghost use Rattle.cal_treefmt.specs.Shown.{IsForLines, ShowsLine};
ghost use Rattle.cal_treefmt.specs.Tree.{header_texts, line_texts, tree};

use crate::columns::columns_beside;
use crate::headers::header_texts;
use crate::lines::{Line, line_at, lines};
use crate::measured::measured;
use crate::plan::Plan;
use crate::shown_line::ShownLine;
use cal_context::Context;
use cal_rowset::{Answer, Column};
use cal_tabfmt::{Shape, append_line, append_shown};
use cal_value::{OutOfMemory, Text};
use std::alloc::Global;

/// The tree of an answer. It takes time in the entries of the rows and in its own text. It goes over
/// the lines twice, first for the widths of the columns, and keeps no text but its own.
pub fn tree_text<A: Answer>(alloc: Global, answer: &A) -> Result<Text, OutOfMemory>
    ensures { IfOk result (λ text. text ≡ tree (A.answer answer.now)) }
{
    let plan = Plan::new(alloc, answer.rows())?;
    planned_text(alloc, answer, &plan)
}

/// The tree of an answer whose rows are planned.
fn planned_text<A: Answer>(alloc: Global, answer: &A, plan: &Plan) -> Result<Text, OutOfMemory>
    requires { IsPlan plan.now (A.answer answer.now).rows.rows }
    ensures { IfOk result (λ text. text ≡ tree (A.answer answer.now)) }
{
    let beside = columns_beside(alloc, answer.columns(), &plan.context)?;
    let lines = lines(alloc, plan)?;
    let shapes = measured(alloc, &beside, &plan.context, answer, &lines)?;
    let mut out = Text::new(alloc);
    write_headers(alloc, &mut out, &shapes, &beside)?;
    write_lines(
        alloc,
        &mut out,
        &shapes,
        &beside,
        &plan.context,
        answer,
        &lines,
    )?;
    Ok(out)
}

fn write_headers(
    alloc: Global,
    out: &mut Text,
    shapes: &[Shape],
    columns: &[Column],
) -> Result<(), OutOfMemory>
    ensures { OnOk result (out.new ≡ out.old ++ grid_line shapes.now (header_texts columns.now)) }
{
    let headers = header_texts(alloc, columns)?;
    append_line(out, shapes, headers.as_slice())
}

/// Writes lines, with these columns beside their labels.
fn write_lines<A: Answer>(
    alloc: Global,
    out: &mut Text,
    shapes: &[Shape],
    columns: &[Column],
    context: &Context,
    answer: &A,
    lines: &[Line],
) -> Result<(), OutOfMemory>
    requires { All (IsWithin context.now) lines.now }
    ensures { OnOk result (length shapes.now ≡ suc (length columns.now) → out.new ≡ out.old
        ++ flat_map (λ line. grid_line shapes.now (line_texts columns.now
        (shown context.now (A.answer answer.now).rows.rows line))) lines.now) }
{
    let mut shown = ShownLine::new(alloc, columns, answer)?;
    write_each(alloc, out, shapes, &mut shown, context, answer, lines)
}

/// Writes lines, each of which is shown in place of the one before.
fn write_each<A: Answer>(
    alloc: Global,
    out: &mut Text,
    shapes: &[Shape],
    at: &mut ShownLine,
    context: &Context,
    answer: &A,
    lines: &[Line],
) -> Result<(), OutOfMemory>
    requires within { All (IsWithin context.now) lines.now }
    requires ready { A.is_ready answer.now at.old.cells }
    ensures { OnOk result ((columns : List columns.Column) → IsForLines columns at.old
        → length shapes.now ≡ suc (length columns) → out.new ≡ out.old
        ++ flat_map (λ line. grid_line shapes.now (line_texts columns
        (shown context.now (A.answer answer.now).rows.rows line))) lines.now) }
{
    for place in 0..lines.len() {
        at.show(context, answer, line_at(lines, place))?;
        write_line(alloc, out, shapes, at)?;
    }
    Ok(())
}

/// Writes a line that is shown.
fn write_line(
    alloc: Global,
    out: &mut Text,
    shapes: &[Shape],
    shown: &ShownLine,
) -> Result<(), OutOfMemory>
    ensures { OnOk result ((columns : List columns.Column) (line : lines.Line)
        → ShowsLine columns shown.now line → length shapes.now ≡ suc (length columns)
        → out.new ≡ out.old ++ grid_line shapes.now (line_texts columns line)) }
{
    let mut pending = 0;
    for place in 0..shapes.len() {
        pending = append_shown(alloc, out, pending, place, shapes, shown.text(place))?;
    }
    out.push_str("\n")
}
