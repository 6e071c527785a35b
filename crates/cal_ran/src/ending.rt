//! A run whose threads have handed over is ended.
ghost use Rattle.std.specs.Prelude.{◌≡◌, IfOk, length};
ghost use Rattle.cal_ran.specs.Ended.{IsEnded};
ghost use Rattle.cal_ran.specs.Runs.{AreHandedOf};
ghost use Rattle.cal_replay.specs.Workers.{script_of};
ghost use Rattle.cal_script.specs.Reading.{IsValidScript};
ghost use Rattle.cal_start.specs.FirstSeats.{HaveHired};
ghost use Rattle.cal_start.specs.Runs.{IsRun};

use crate::ended::EndedRun;
use cal_finish::{end_threads, ended_runners_law, ended_threads_law};
use cal_handover::{Handed, close_books};
use cal_keeping::BookHand;
use cal_start::{FirstSeats, Run};
use cal_traces::{limits_law, names_law, traces_law};
use cal_value::OutOfMemory;
use std::alloc::Global;

/// Closes the books of a run, all of whose threads have run and handed over, and ends the threads.
/// An `Err` is want of memory, and drops all.
pub(crate) fn end_run<'a, P>(
    alloc: Global,
    run: Run<'a>,
    first: FirstSeats,
    handed: Handed,
) -> Result<EndedRun<'a>, OutOfMemory>
    requires valid { IsValidScript (script_of run.shared) }
    requires run { IsRun run }
    requires first { HaveHired run first (length (script_of run.shared).threads) }
    requires handed { AreHandedOf P run handed }
    ensures ended { IfOk result (IsEnded (script_of run.entry.shared)) }
    ensures real { IfOk result (λ e. e.journal.real ≡ run.entry.shared.real) }
    ensures noted { IfOk result (λ e. e.journal.threads ≡ handed.notes) }
{
    ended_threads_law::<P, BookHand<'_>>();
    ended_runners_law::<P, BookHand<'_>>();
    traces_law();
    limits_law();
    names_law();
    run.context.has_each_once();
    let Run {
        shared,
        context,
        numbers: _,
        shapes: _,
        books,
    } = run;
    let FirstSeats {
        mut tree,
        mut log,
        books: firsts,
    } = first;
    let Handed {
        threads,
        notes,
        mut channels,
        seats,
    } = handed;
    let tables = close_books(alloc, books, firsts, seats, channels.as_mut_slice())?;
    let journal = end_threads(alloc, &shared, threads, notes, &mut tree, &mut log)?;
    Ok(EndedRun {
        shared,
        context,
        tree,
        channels,
        tables,
        journal,
    })
}
