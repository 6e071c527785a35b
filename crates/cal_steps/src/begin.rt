//! A world before the first event.
ghost use Rattle.std.specs.Prelude.{◌≡◌, [], map, IfOk};
ghost use Rattle.cal_events.specs.Worlds.{thread_at_start, world_at_start};
ghost use Rattle.cal_run.specs.Lawful.{HasShape};
ghost use Rattle.cal_steps.specs.Behind.{IsBehind};
ghost use Rattle.cal_world.specs.Progress.{behind};

use crate::World;
use crate::noted::NotedThread;
use crate::part::Part;
use crate::reach::Reach;
use cal_script::{Journal, Script};
use cal_value::{OutOfMemory, Seq};
use std::alloc::Global;

impl World {
    /// The world before the first event: each thread has its start reading in the journal, and
    /// all else is empty.
    pub fn new(alloc: Global, script: &Script, journal: &Journal) -> Result<World, OutOfMemory>
        requires shape { HasShape script.now journal.now }
        ensures start { IfOk result (λ world. world ≡ world_at_start script.now journal.now) }
        ensures behind { IfOk result (IsBehind script.now journal.now) }
    {
        let reached = none_reached(alloc, journal)?;
        let threads = first_threads(alloc, script, journal)?;
        let books = no_books(alloc, script)?;
        Ok(World {
            alloc,
            history: Seq::new(alloc),
            reached,
            threads,
            paths: Seq::new(alloc),
            books,
        })
    }
}

/// No line is done of any thread.
fn none_reached(alloc: Global, journal: &Journal) -> Result<Vec<Reach>, OutOfMemory>
    ensures { IfOk result (λ reached. reached.items ≡ map (λ n. behind 0) journal.now.threads) }
{
    let mut reached = Vec::new(alloc);
    for _note in journal.threads.as_slice() {
        reached.push(Reach::new())?;
    }
    Ok(reached)
}

/// Each thread before its first line.
fn first_threads(
    alloc: Global,
    script: &Script,
    journal: &Journal,
) -> Result<Vec<NotedThread>, OutOfMemory>
    ensures { IfOk result (λ threads. threads.items
        ≡ map (thread_at_start script.now) journal.now.threads) }
{
    let mut threads = Vec::new(alloc);
    for note in journal.threads.as_slice() {
        let thread = NotedThread::new(alloc, script, note)?;
        threads.push(thread)?;
    }
    Ok(threads)
}

/// The book of each channel has nothing.
fn no_books(alloc: Global, script: &Script) -> Result<Vec<Seq<Part>>, OutOfMemory>
    ensures { IfOk result (λ books. books.items ≡ map (λ c. []) script.now.channels) }
{
    let mut books = Vec::new(alloc);
    for _channel in script.channels.as_slice() {
        books.push(Seq::new(alloc))?;
    }
    Ok(books)
}
