//! The worlds behind the schedules of journals.
ghost use Rattle.cal_run.specs.Lawful.{Lawful};
ghost use Rattle.cal_script.specs.Valid.{IsRunnable};

use crate::scripts::{IN_TURN, SHARED, TOO_EARLY, journal_of, runnable};
use cal_lawful::{CoreEnd, run_serial};
use cal_script::{Journal, JournalText, Script, ThreadNote};
use cal_steps::World;
use cal_value::{OutOfMemory, Records};
use std::alloc::Global;
use std::test::Fail;

/// Whether two threads have the same notes.
fn same_note(one: &ThreadNote, other: &ThreadNote) -> bool {
    one.start == other.start && one.lines == other.lines
}

/// Whether the threads have the same notes.
fn same_notes(one: &[ThreadNote], other: &[ThreadNote]) -> bool {
    one.len() == other.len()
        && one
            .iter()
            .zip(other)
            .all(|(one, other)| same_note(one, other))
}

/// Whether a world has the history and the notes of a journal, and these records.
fn has_ended(
    alloc: Global,
    script: &Script,
    world: &World,
    journal: &Journal,
    wanted: &Records,
) -> Result<bool, OutOfMemory> {
    let notes = world.threads()?;
    let records = world.records(alloc, script)?;
    Ok(
        world.history() == journal.ops.as_slice()
            && same_notes(notes.as_slice(), journal.threads.as_slice())
            && records.rows == wanted.rows
            && records.globals == wanted.globals,
    )
}

/// Whether the world behind the schedule of a lawful journal has its history and its notes, these
/// records and so many nodes.
pub(crate) fn is_world_of(
    alloc: Global,
    script: &Script,
    journal: &Journal,
    wanted: &Records,
    nodes: u64,
) -> Result<bool, OutOfMemory>
    requires runnable { IsRunnable script.now }
    requires lawful { Lawful script.now journal.now }
{
    let world = World::scheduled(alloc, script, journal)?;
    let ended = has_ended(alloc, script, &world, journal, wanted)?;
    Ok(ended && world.node_count() as u64 == nodes)
}

/// Whether that world has the records of the run by the journal alone.
fn is_serial(
    alloc: Global,
    script: &Script,
    text: &JournalText,
    nodes: u64,
) -> Result<bool, CoreEnd>
    requires { IsRunnable script.now }
{
    let records = run_serial(alloc, script, text)?;
    let same = is_world_of(alloc, script, &text.journal, &records, nodes)?;
    Ok(same)
}

/// The same of a journal's text.
fn is_serial_text(alloc: Global, script: &Script, text: &str, nodes: u64) -> bool
    requires { IsRunnable script.now }
{
    match journal_of(alloc, text) {
        Some(journal) => is_serial(alloc, script, &journal, nodes).unwrap_or(false),
        None => false,
    }
}

#[test]
fn two_threads_that_share_a_phase_leave_its_records(rt: HostRuntime) -> Result<(), Fail> {
    let script = runnable(rt.alloc(), SHARED)?;
    let in_turn = is_serial_text(rt.alloc(), &script, IN_TURN, 1);
    let too_early = is_serial_text(rt.alloc(), &script, TOO_EARLY, 1);
    drop(script);
    assert!(rt; in_turn, "in turn");
    assert!(rt; too_early, "too early");
    Ok(())
}
