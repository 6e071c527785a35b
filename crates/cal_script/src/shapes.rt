ghost use Rattle.std.specs.Prelude.{◌≡◌, ◌≤◌, option_copied, sum_by};
ghost use Rattle.std.specs.List.{list_any};
ghost use Rattle.cal_script.specs.Counts.{attribute_at, is_process_line, line_words, value_at};
ghost use Rattle.cal_script.specs.Shapes.{greatest, history_shape, own_words, process_lines};
ghost use Rattle.cal_script.specs.Shapes.{shared_words, tree_arena, tree_shape};
ghost use Rattle.cal_script.specs.Valid.{IsRunnable};
ghost use Rattle.cal_value.specs.Props.{has_process_scope};
ghost use Rattle.cal_words.specs.Shapes.{IsShape};

use crate::tally::node_length;
use crate::{Line, Script};
use cal_value::{Attribute, Variant};
use cal_words::Shape;

/// How the context tree of a run is laid out: there is room for each node that the script's lines
/// can make, whatever a thread comes to make first. It takes one pass over the lines, and one more
/// where an attribute is the process's.
pub fn tree_shape(script: &Script) -> Shape
    requires { IsRunnable script.now }
    ensures shape { result ≡ tree_shape script.now }
    ensures is_shape { IsShape result }
{
    let threads = script.threads.len() as u64;
    let arena = tree_arena(script);
    let slots = (threads + 1) * (arena / 4) + 1;
    Shape {
        slots,
        homes: slots,
        arena,
        arenas: threads + 1,
    }
}

/// How the history of a run is laid out: there is room for each process line of the script. It takes
/// one pass over the lines where an attribute is the process's, and none else.
pub fn history_shape(script: &Script) -> Shape
    requires { IsRunnable script.now }
    ensures shape { result ≡ history_shape script.now }
    ensures is_shape { IsShape result }
{
    let threads = script.threads.len() as u64;
    let most = most_process_lines(script);
    Shape {
        slots: (threads + 1) * most + 1,
        homes: 1,
        arena: 7 * most,
        arenas: threads + 1,
    }
}

/// Whether some attribute of a script is the process's. Only such a one has process lines.
pub fn has_process_attribute(script: &Script) -> bool
    ensures { result ≡ list_any (λ attribute. has_process_scope attribute.props)
        script.now.attributes }
{
    script
        .attributes
        .as_slice()
        .iter()
        .any(|attribute| attribute.props.has_process_scope())
}

/// The words of a thread's arena in the tree.
fn tree_arena(script: &Script) -> u64
    requires { IsRunnable script.now }
    ensures { result ≡ tree_arena script.now }
{
    shared_words_of_all(script) + most_own_words(script)
}

/// The words of the nodes of all process lines.
fn shared_words_of_all(script: &Script) -> u64
    requires { IsRunnable script.now }
    ensures { result ≡ sum_by (sum_by (shared_words script.now)) script.now.threads }
{
    if !has_process_attribute(script) {
        return 0;
    }
    let mut shared = 0;
    for lines in script.threads.as_slice() {
        shared += all_shared_words(script, lines.as_slice());
    }
    shared
}

/// The most words of the nodes of one thread's other lines.
fn most_own_words(script: &Script) -> u64
    requires { IsRunnable script.now }
    ensures { result ≡ greatest (sum_by (own_words script.now)) script.now.threads }
{
    let mut most = 0;
    for lines in script.threads.as_slice() {
        most = all_own_words(script, lines.as_slice()).max(most);
    }
    most
}

/// The most process lines of one thread.
fn most_process_lines(script: &Script) -> u64
    requires { IsRunnable script.now }
    ensures { result ≡ greatest (process_lines script.now) script.now.threads }
{
    if !has_process_attribute(script) {
        return 0;
    }
    let mut most = 0;
    for lines in script.threads.as_slice() {
        most = all_process_lines(script, lines.as_slice()).max(most);
    }
    most
}

/// The words of the nodes of a thread's process lines.
fn all_shared_words(script: &Script, lines: &[Line]) -> u64
    requires { sum_by (shared_words script.now) lines.now ≤ 134217728 }
    ensures { result ≡ sum_by (shared_words script.now) lines.now }
{
    let mut words = 0;
    for line in lines {
        words += shared_words(script, *line);
    }
    words
}

/// Those of its other lines.
fn all_own_words(script: &Script, lines: &[Line]) -> u64
    requires { sum_by (own_words script.now) lines.now ≤ 134217728 }
    ensures { result ≡ sum_by (own_words script.now) lines.now }
{
    let mut words = 0;
    for line in lines {
        words += own_words(script, *line);
    }
    words
}

/// How many process lines there are.
fn all_process_lines(script: &Script, lines: &[Line]) -> u64
    ensures { result ≡ process_lines script.now lines.now }
{
    let mut count = 0;
    for line in lines {
        if is_process_line(script, *line) {
            count += 1;
        }
    }
    count
}

fn shared_words(script: &Script, line: Line) -> u64
    ensures { result ≡ shared_words script.now line }
{
    if is_process_line(script, line) {
        line_words(script, line)
    } else {
        0
    }
}

fn own_words(script: &Script, line: Line) -> u64
    ensures { result ≡ own_words script.now line }
{
    if is_process_line(script, line) {
        0
    } else {
        line_words(script, line)
    }
}

/// Whether a line is placed in the history.
fn is_process_line(script: &Script, line: Line) -> bool
    ensures { result ≡ is_process_line script.now.attributes script.now.values line }
{
    match attribute_at(script, line) {
        None => false,
        Some(attribute) => attribute.props.has_process_scope(),
    }
}

/// The words of the node that a line makes.
fn line_words(script: &Script, line: Line) -> u64
    ensures { result ≡ line_words script.now.attributes script.now.values line }
{
    match (attribute_at(script, line), value_at(script, line)) {
        (Some(attribute), Some(value)) if attribute.props.is_reference() => node_length(value),
        _ => 0,
    }
}

fn attribute_at(script: &Script, line: Line) -> Option<&Attribute>
    ensures { option_copied result ≡ attribute_at script.now.attributes line }
{
    match line {
        Line::Begin { attr, .. } | Line::Set { attr, .. } | Line::End { attr } => {
            script.attributes.get(attr as usize)
        }
        Line::Snapshot | Line::Flush { .. } | Line::Tick { .. } => None,
    }
}

fn value_at(script: &Script, line: Line) -> Option<&Variant>
    ensures { option_copied result ≡ value_at script.now.values line }
{
    match line {
        Line::Begin { value, .. } | Line::Set { value, .. } => script.values.get(value as usize),
        Line::End { .. } | Line::Snapshot | Line::Flush { .. } | Line::Tick { .. } => None,
    }
}
