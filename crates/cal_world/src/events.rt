//! The events of a line.
ghost use Rattle.std.specs.Prelude.{◌≡◌, ◌++◌, OnOk, length, slice_get, slice_range, flat_map};
ghost use Rattle.cal_world.specs.Events.{end_event, events_of, first_events, node_if, nodes_at};
ghost use Rattle.cal_world.specs.Events.{placed_nodes, seen_before};

use crate::needs::{is_looking, needs_node, placed_node};
use crate::turn::turn_at;
use crate::{Event, Turn};
use cal_run::is_process_line;
use cal_script::{Journal, Line, Script};
use cal_value::{OutOfMemory, Seq};

/// The events of lines, one after another.
pub(crate) fn push_turns(
    script: &Script,
    journal: &Journal,
    turns: &[Turn],
    events: &mut Seq<Event>,
) -> Result<(), OutOfMemory>
    ensures { OnOk result (events.new
        ≡ events.old ++ flat_map (events_of script.now journal.now) turns.now) }
{
    for place in 0..turns.len() {
        let turn = turn_at(turns, place);
        push_events(script, journal, turn, events)?;
    }
    Ok(())
}

/// The events of a line.
fn push_events(
    script: &Script,
    journal: &Journal,
    turn: Turn,
    events: &mut Seq<Event>,
) -> Result<(), OutOfMemory>
    ensures { OnOk result (events.new ≡ events.old ++ events_of script.now journal.now turn) }
{
    push_first(script, turn, events)?;
    let to = seen_before(script, turn);
    push_taken(script, journal, turn.thread, turn.before, to, events)?;
    push_node_if(
        turn.thread,
        needs_node(script, turn.line, turn.note),
        events,
    )?;
    events.push(end_event(turn))?;
    Ok(())
}

/// A process line is placed, and another line that looks sees the whole history.
fn push_first(script: &Script, turn: Turn, events: &mut Seq<Event>) -> Result<(), OutOfMemory>
    ensures { OnOk result (events.new ≡ events.old ++ first_events script.now turn) }
{
    let thread = turn.thread;
    let line = turn.number;
    if is_process_line(script, turn.line) {
        events.push(Event::Place { thread, line })
    } else if is_looking(script, turn.line, turn.note) {
        events.push(Event::Look { thread, line })
    } else {
        Ok(())
    }
}

/// How many events of a line come before its nodes.
pub fn first_count(script: &Script, turn: Turn) -> u64
    ensures { result ≡ length (first_events script.now turn) }
{
    if is_process_line(script, turn.line) || is_looking(script, turn.line, turn.note) {
        1
    } else {
        0
    }
}

/// How much of the history a line takes in: all that it has seen, but for its own operation.
pub fn seen_before(script: &Script, turn: Turn) -> u64
    ensures { result ≡ seen_before script.now turn }
{
    if is_process_line(script, turn.line) {
        turn.note.seen.saturating_sub(1)
    } else {
        turn.note.seen
    }
}

/// A node for each operation from a place up to another that needs one.
fn push_taken(
    script: &Script,
    journal: &Journal,
    thread: u32,
    from: u64,
    to: u64,
    events: &mut Seq<Event>,
) -> Result<(), OutOfMemory>
    ensures { OnOk result (events.new ≡ events.old
        ++ flat_map (placed_nodes script.now journal.now thread)
        (slice_range journal.now.ops from to)) }
{
    for place in from..to {
        push_placed(script, journal, thread, place, events)?;
    }
    Ok(())
}

/// A node for the operation of a place, if there is one that needs it.
fn push_placed(
    script: &Script,
    journal: &Journal,
    thread: u32,
    place: u64,
    events: &mut Seq<Event>,
) -> Result<(), OutOfMemory>
    ensures { OnOk result (events.new ≡ events.old
        ++ nodes_at script.now journal.now thread (slice_get journal.now.ops place)) }
{
    match journal.ops.get(place as usize) {
        None => Ok(()),
        Some(placed) => push_node_if(thread, placed_node(script, journal, *placed), events),
    }
}

/// A node, if it is needed.
fn push_node_if(thread: u32, needed: bool, events: &mut Seq<Event>) -> Result<(), OutOfMemory>
    ensures { OnOk result (events.new ≡ events.old ++ node_if thread needed) }
{
    if needed {
        events.push(Event::Node { thread })
    } else {
        Ok(())
    }
}

/// How a line ends.
fn end_event(turn: Turn) -> Event
    ensures { result ≡ end_event turn turn.line }
{
    let thread = turn.thread;
    let line = turn.number;
    match turn.line {
        Line::Flush { .. } => Event::Flush { thread, line },
        _ => Event::Own { thread, line },
    }
}
