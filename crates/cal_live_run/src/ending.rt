//! A run whose threads' parts were collected is ended.
ghost use Rattle.std.specs.Prelude.{◌≡◌, IfOk, length};
ghost use Rattle.cal_live_run.specs.Collected.{AreCollectedOf};
ghost use Rattle.cal_live_run.specs.Quiet.{IsQuiet};
ghost use Rattle.cal_ran.specs.Ended.{IsEnded};
ghost use Rattle.cal_replay.specs.Workers.{script_of};
ghost use Rattle.cal_script.specs.Reading.{IsValidScript};
ghost use Rattle.cal_start.specs.Runs.{IsRun};
ghost use Rattle.cal_thread.specs.Hiring.{HasHired};

use crate::gathering::gather_tables;
use crate::running::Collected;
use cal_collect::Shapes;
use cal_finish::{end_threads, ended_runners_law, ended_threads_law};
use cal_live::SenderHand;
use cal_ran::EndedRun;
use cal_start::{FirstSeats, Run};
use cal_traces::{limits_law, names_law, traces_law};
use cal_value::OutOfMemory;
use std::alloc::Global;
use std::sync::Wait;

/// Puts what the threads of a run have left beside what was collected of them, and ends the
/// threads. An `Err` is want of memory, and drops all.
pub(crate) fn end_run<'a, P, Q: Wait, S: Shapes>(
    alloc: Global,
    run: Run<'a>,
    first: FirstSeats,
    collected: Collected,
) -> Result<EndedRun<'a>, OutOfMemory>
    requires valid { IsValidScript (script_of run.shared) }
    requires run { IsRun run }
    requires shapes { S.shapes ≡ run.shapes.items }
    requires first { HasHired run.shared.common first.tree first.log
        (length (script_of run.shared).threads) }
    requires collected { AreCollectedOf P Q S S.shapes run collected }
    ensures ended { IfOk result (IsEnded (script_of run.entry.shared)) }
    ensures quiet { IfOk result (λ e. IsQuiet (script_of run.entry.shared) e.journal) }
    ensures real { IfOk result (λ e. e.journal.real ≡ run.entry.shared.real) }
    ensures noted { IfOk result (λ e. e.journal.threads ≡ collected.notes) }
{
    ended_threads_law::<P, SenderHand<'_, Q, S>>();
    ended_runners_law::<P, SenderHand<'_, Q, S>>();
    traces_law();
    limits_law();
    names_law();
    run.context.has_each_once();
    let Run {
        shared,
        context,
        numbers: _,
        shapes: _,
        books: _,
    } = run;
    let FirstSeats {
        mut tree,
        mut log,
        books: _,
    } = first;
    let Collected {
        threads,
        notes,
        mut channels,
        tables,
    } = collected;
    let alls = gather_tables(alloc, tables, channels.as_mut_slice())?;
    let journal = end_threads(alloc, &shared, threads, notes, &mut tree, &mut log)?;
    Ok(EndedRun {
        shared,
        context,
        tree,
        channels,
        tables: alls,
        journal,
    })
}
