ghost use Rattle.std.specs.Prelude.{◌≡◌, ℕ, ◌∷◌, ◌++◌, [], List, map, max, IfOk, OnOk};
ghost use Rattle.std.specs.List.{All};
ghost use Rattle.cal_rowset.specs.declared.rowset.Column as columns;
ghost use Rattle.cal_tabfmt.specs.Grid.{shapes as shapes_of};
ghost use Rattle.cal_treefmt.specs.Lines as lines;
ghost use Rattle.cal_treefmt.specs.Plans.{IsWithin, shown};
ghost use Rattle.cal_treefmt.specs.Shown.{IsForLines, ShowsLine};
ghost use Rattle.cal_treefmt.specs.Tree.{header_texts, line_texts, rights};

use crate::headers::header_texts;
use crate::lines::{Line, line_at};
use crate::shown_line::ShownLine;
use cal_context::Context;
use cal_rowset::{Answer, Column};
use cal_tabfmt::{Shape, shapes, shown_width};
use cal_value::{OutOfMemory, Seq};
use std::alloc::Global;

/// The columns of the headers and the lines, each as wide as its widest text.
pub(crate) fn measured<A: Answer>(
    alloc: Global,
    columns: &[Column],
    context: &Context,
    answer: &A,
    lines: &[Line],
) -> Result<Vec<Shape>, OutOfMemory>
    requires { All (IsWithin context.now) lines.now }
    ensures { IfOk result (λ made. made.items ≡ shapes_of (header_texts columns.now
        ∷ map (λ line. line_texts columns.now
        (shown context.now (A.answer answer.now).rows.rows line)) lines.now)
        0 (rights columns.now)) }
{
    let mut made = header_shapes(alloc, columns)?;
    widen_all(alloc, &mut made, columns, context, answer, lines)?;
    Ok(made)
}

/// Makes the columns of headers as wide as the texts of lines.
fn widen_all<A: Answer>(
    alloc: Global,
    all: &mut Vec<Shape>,
    columns: &[Column],
    context: &Context,
    answer: &A,
    lines: &[Line],
) -> Result<(), OutOfMemory>
    requires { All (IsWithin context.now) lines.now }
    ensures { OnOk result ((head : List (List ℕ))
        → all.old.items ≡ shapes_of (head ∷ []) 0 (rights columns.now)
        → all.new.items ≡ shapes_of (head ∷ map (λ line. line_texts columns.now
        (shown context.now (A.answer answer.now).rows.rows line)) lines.now)
        0 (rights columns.now)) }
{
    let mut shown = ShownLine::new(alloc, columns, answer)?;
    widen_each(alloc, all, &mut shown, context, answer, lines)
}

/// Makes the columns as wide as the texts of lines, each of which is shown in place of the one
/// before.
fn widen_each<A: Answer>(
    alloc: Global,
    all: &mut Vec<Shape>,
    at: &mut ShownLine,
    context: &Context,
    answer: &A,
    lines: &[Line],
) -> Result<(), OutOfMemory>
    requires within { All (IsWithin context.now) lines.now }
    requires ready { A.is_ready answer.now at.old.cells }
    ensures { OnOk result ((columns : List columns.Column) (head : List (List ℕ))
        → IsForLines columns at.old
        → all.old.items ≡ shapes_of (head ∷ []) 0 (rights columns)
        → all.new.items ≡ shapes_of (head ∷ map (λ line. line_texts columns
        (shown context.now (A.answer answer.now).rows.rows line)) lines.now)
        0 (rights columns)) }
{
    for place in 0..lines.len() {
        at.show(context, answer, line_at(lines, place))?;
        widen(alloc, all, at)?;
    }
    Ok(())
}

/// The columns of the headers alone.
fn header_shapes(alloc: Global, columns: &[Column]) -> Result<Vec<Shape>, OutOfMemory>
    ensures { IfOk result (λ made. made.items
        ≡ shapes_of (header_texts columns.now ∷ []) 0 (rights columns.now)) }
{
    let rights = rights(alloc, columns)?;
    let headers = header_texts(alloc, columns)?;
    let mut lines = Seq::new(alloc);
    lines.push(headers)?;
    shapes(alloc, &rights, lines.as_slice())
}

/// Labels stand on the left, and the columns beside them are right-aligned.
fn rights(alloc: Global, columns: &[Column]) -> Result<Vec<bool>, OutOfMemory>
    ensures { IfOk result (λ aligned. aligned.items ≡ rights columns.now) }
{
    let mut rights = Vec::new(alloc);
    rights.push(false)?;
    for _column in columns {
        rights.push(true)?;
    }
    Ok(rights)
}

/// Makes the columns as wide as the texts of a line.
fn widen(alloc: Global, all: &mut Vec<Shape>, shown: &ShownLine) -> Result<(), OutOfMemory>
    ensures { OnOk result ((columns : List columns.Column) (line : lines.Line)
        (before : List (List (List ℕ))) → ShowsLine columns shown.now line
        → all.old.items ≡ shapes_of before 0 (rights columns)
        → all.new.items ≡ shapes_of (before ++ line_texts columns line ∷ []) 0 (rights columns)) }
{
    for place in 0..all.len() {
        let width = shown_width(alloc, shown.text(place))?;
        all[place] = wider(all[place], width);
    }
    Ok(())
}

fn wider(shape: Shape, width: usize) -> Shape
    ensures { result ≡ record { width = max shape.width width; right = shape.right } }
{
    Shape {
        width: shape.width.max(width),
        right: shape.right,
    }
}
