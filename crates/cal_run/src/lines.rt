ghost use Rattle.std.specs.Prelude.{◌≡◌, ℕ, ◌<◌, ◌≤◌, [], false, length, slice_get, slice_index_or};
ghost use Rattle.cal_run.specs.Lines.{attr_ref, attribute_of, is_event, is_process_line};
ghost use Rattle.cal_run.specs.Lines.{is_shared, is_such, line_at, operation_of, takes};
ghost use Rattle.cal_script.specs.declared.script.Line as script_lines;

use crate::{Operation, operation_of};
use cal_board::AttrRef;
use cal_script::{Channel, Line, Placed, Script};
use cal_value::Props;

/// The properties of an attribute, by its place in the script.
#[inline(always)]
fn props_of(script: &Script, attr: u32) -> Props
    ensures { result ≡ (attribute_of script.now attr).props }
{
    match script.attributes.get(attr as usize) {
        Some(attribute) => attribute.props,
        None => Props(0),
    }
}

/// An attribute as boards know it.
#[inline(always)]
pub fn attr_ref(script: &Script, attr: u32) -> AttrRef
    ensures { result ≡ attr_ref script.now attr }
{
    let props = props_of(script, attr);
    AttrRef {
        number: attr,
        nested: props.is_nested(),
        as_value: props.is_as_value(),
    }
}

/// Whether an operation is the process's.
#[inline(always)]
pub fn is_shared(script: &Script, op: Operation) -> bool
    ensures { result ≡ is_shared script.now op }
{
    props_of(script, op.attr).has_process_scope()
}

/// Whether a line is placed in the history.
#[inline(always)]
pub fn is_process_line(script: &Script, line: Line) -> bool
    ensures { result ≡ is_process_line script.now line }
{
    match operation_of(line) {
        None => false,
        Some(op) => is_shared(script, op),
    }
}

#[inline(always)]
pub(crate) fn is_event(script: &Script, line: Line) -> bool
    ensures { result ≡ is_such (is_event script.now) (operation_of line) }
{
    match operation_of(line) {
        None => false,
        Some(op) => !props_of(script, op.attr).skips_events(),
    }
}

/// Whether a channel takes a snapshot on a line that is accepted.
#[inline(always)]
pub fn takes(script: &Script, channel: &Channel, line: Line) -> bool
    ensures { result ≡ takes script.now channel.now line }
{
    match line {
        Line::Snapshot => true,
        _ => channel.event && is_event(script, line),
    }
}

/// How many lines there are up to the last on which a channel may take a snapshot.
pub(crate) fn lines_to_run(script: &Script, channel: &Channel, lines: &[Line]) -> usize
    ensures within { result ≤ length lines.now }
    ensures behind { (place : ℕ) (l : script_lines.Line) → result ≤ place → place < length lines.now
        → takes script.now channel.now (slice_index_or lines.now place l) ≡ false }
{
    for back in 0..lines.len() {
        let place = lines.len() - 1 - back;
        if takes(script, channel, lines[place]) {
            return place + 1;
        }
    }
    0
}

/// The line that is placed, by its thread and its number.
pub fn line_at(script: &Script, placed: Placed) -> Option<Line>
    ensures { result ≡ line_at script.now placed.thread placed.line }
{
    if placed.line == 0 {
        None
    } else {
        line_of(script, placed.thread, placed.line - 1)
    }
}

/// The line of a thread at a place.
fn line_of(script: &Script, thread: u32, place: u32) -> Option<Line>
    ensures { result ≡ slice_get (slice_index_or script.now.threads thread []) place }
{
    match script.threads.get(thread as usize) {
        None => None,
        Some(lines) => lines.get(place as usize).copied(),
    }
}
