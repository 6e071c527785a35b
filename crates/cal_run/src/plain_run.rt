ghost use Rattle.std.specs.Prelude.{◌≡◌, ◌+◌, ◌≤◌, length, All, IfOk, OnOk, if◌then◌else◌};
ghost use Rattle.cal_context.specs.Taking.{TakesMore};
ghost use Rattle.cal_context.specs.Tree.{Grows};
ghost use Rattle.cal_run.specs.Behind.{HasRun, taken_behind};
ghost use Rattle.cal_run.specs.Lawful.{process_lines};
ghost use Rattle.cal_run.specs.Numbers.{AreNumbered};
ghost use Rattle.cal_run.specs.Plain.{plain, plain_history};
ghost use Rattle.cal_run.specs.Refused.{is_refused, refused_in};
ghost use Rattle.cal_run.specs.Runs.{snapshots};
ghost use Rattle.cal_run.specs.Steps.{at_start};
ghost use Rattle.cal_script.specs.Valid.{IsPlaced, IsRunnable};

use crate::Numbers;
use crate::behind::Behind;
use crate::drafts::Drafts;
use crate::placing::{line_in, lines_of_thread, plain_history};
use cal_context::{Context, Taker};
use cal_script::{Channel, Line, Placed, Reply, Script};
use cal_value::OutOfMemory;
use std::alloc::Global;

/// Where a thread ended: how many operations stand behind it, and how many of its lines were
/// refused.
#[derive(Clone, Copy, Debug, PartialEq, Eq)]
pub(crate) struct ThreadEnd {
    pub before: usize,
    pub refused: u64,
}

/// Hands what a channel takes in the run of the threads one after another to a taker, as
/// `take_channel` does by the plain journal, of which nothing is kept. Gives how many lines were
/// refused. After an `Err` nothing is said of the taker.
pub fn take_plain_channel<T: Taker>(
    alloc: Global,
    script: &Script,
    channel: &Channel,
    numbers: &Numbers,
    context: &mut Context,
    taker: &mut T,
) -> Result<u64, OutOfMemory>
    requires runnable { IsRunnable script.now }
    requires numbered { AreNumbered context.old script.now numbers.now }
    ensures taken { OnOk result (TakesMore
        (T.has_taken taker.old context.old)
        (T.has_taken taker.new context.new)
        (snapshots script.now (plain script.now) channel.now)) }
    ensures refused { IfOk result (λ refused. refused ≡ refused_in (plain script.now).threads) }
    ensures grows { Grows context.old context.new }
    ensures about { OnOk result (T.about taker.new ≡ T.about taker.old) }
{
    let mut drafts = Drafts::new(alloc);
    let history = plain_history(alloc, script)?;
    let mut before = 0;
    let mut refused = 0;
    for number in 0..script.threads.len() {
        let lines = lines_of_thread(script, number);
        let end = run_behind(
            alloc,
            script,
            numbers,
            channel,
            history.as_slice(),
            lines,
            before,
            context,
            &mut drafts,
            taker,
        )?;
        before = end.before;
        refused += end.refused;
    }
    Ok(refused)
}

/// Runs a thread behind so many operations, and hands what the channel takes of it to a taker.
fn run_behind<T: Taker>(
    alloc: Global,
    script: &Script,
    numbers: &Numbers,
    channel: &Channel,
    history: &[Placed],
    lines: &[Line],
    before: usize,
    context: &mut Context,
    drafts: &mut Drafts,
    taker: &mut T,
) -> Result<ThreadEnd, OutOfMemory>
    requires runnable { IsRunnable script.now }
    requires numbered { AreNumbered context.old script.now numbers.now }
    requires placed { All (IsPlaced script.now.attributes script.now.channels script.now.values)
        lines.now }
    requires few { length lines.now ≤ 1048576 }
    requires history { history.now ≡ plain_history script.now }
    requires room { before + length (process_lines script.now lines.now) ≤ length history.now }
    ensures taken { OnOk result (TakesMore
        (T.has_taken taker.old context.old)
        (T.has_taken taker.new context.new)
        (taken_behind script.now channel.now before 0 at_start 0 lines.now)) }
    ensures ended { IfOk result (HasRun script.now before lines.now) }
    ensures grows { Grows context.old context.new }
    ensures about { OnOk result (T.about taker.new ≡ T.about taker.old) }
{
    let mut behind = Behind::new(alloc, script, before, channel.timer);
    let mut refused = 0;
    for place in 0..lines.len() {
        let line = line_in(lines, place);
        let reply = behind.run_line(
            alloc, script, numbers, channel, history, line, context, drafts, taker,
        )?;
        refused += refusals(reply);
    }
    Ok(ThreadEnd {
        before: behind.before,
        refused,
    })
}

/// How many lines a line with this reply is, if refused ones are counted: one or none.
#[inline(always)]
fn refusals(reply: Reply) -> u64
    ensures { result ≡ (if is_refused reply then 1 else 0) }
{
    match reply {
        Reply::Mismatch { .. } | Reply::NotOpen | Reply::TooDeep | Reply::SlotsFull => 1,
        Reply::Done | Reply::Merged | Reply::Busy { .. } => 0,
    }
}
