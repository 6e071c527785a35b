ghost use Rattle.std.specs.Prelude.{◌≡◌, ℕ, ◌-◌, ◌<◌, true, [], ◌∷◌, ◌&&◌, if◌then◌else◌};
ghost use Rattle.std.specs.Prelude.{unwrap_or, OnOk};
ghost use Rattle.cal_context.specs.Taking.{TakesMore};
ghost use Rattle.cal_context.specs.Tree.{Grows};
ghost use Rattle.cal_run.specs.Adding.{MayAccept, MayHavePlaces};
ghost use Rattle.cal_run.specs.Held.{HoldsSome, HoldsThen};
ghost use Rattle.cal_run.specs.History.{board_placed as board_changed};
ghost use Rattle.cal_run.specs.Lines.{is_process_line, operation_of, takes};
ghost use Rattle.cal_run.specs.Numbers.{AreNumbered};
ghost use Rattle.cal_run.specs.Snapshots.{Sight, snapshot_of};
ghost use Rattle.cal_run.specs.Steps.{ThreadState, is_accepted, readings_changed, reply_to_line};
ghost use Rattle.cal_run.specs.Steps.{seen_before};
ghost use Rattle.cal_run.specs.Threads.{CanRun, IsSomeThread, IsThread, RunsLine, ShowsThread};
ghost use Rattle.cal_script.specs.Valid.{IsPlaced, IsRunnable};

use crate::boards::operate_accepted;
use crate::drafts::Drafts;
use crate::filling::fill;
use crate::lines::{attr_ref, is_process_line, takes};
use crate::moment::Moment;
use crate::steps::{is_accepted, reply_to_line};
use crate::thread::Thread;
use crate::{Numbers, operation_of};
use cal_context::{Context, Taker};
use cal_script::{Channel, Line, LineNote, Placed, Reply, Script};
use cal_value::OutOfMemory;
use std::alloc::Global;

/// Runs a line of a thread: hands what the channel takes of it to a taker, and makes the change.
pub(crate) fn run_line<T: Taker>(
    alloc: Global,
    script: &Script,
    numbers: &Numbers,
    channel: &Channel,
    history: &[Placed],
    line: Line,
    note: LineNote,
    thread: &mut Thread,
    context: &mut Context,
    drafts: &mut Drafts,
    taker: &mut T,
) -> Result<(), OutOfMemory>
    requires runnable { IsRunnable script.now }
    requires numbered { AreNumbered context.old script.now numbers.now }
    requires placed { IsPlaced script.now.attributes script.now.channels script.now.values line }
    requires thread { IsSomeThread context.old script.now history.now thread.old }
    requires timed { thread.old.timed ≡ channel.now.timer }
    requires can { CanRun script.now history.now thread.old line note }
    ensures runs { OnOk result ((state : ThreadState) (previous : ℕ)
        → IsThread context.old script.now history.now thread.old state previous
        → RunsLine context.new script.now history.now thread.new channel.now line note
        (T.has_taken taker.old context.old) (T.has_taken taker.new context.new) state previous) }
    ensures seen { OnOk result (thread.new.process.count
        ≡ seen_before script.now history.now line note) }
    ensures timed { OnOk result (thread.new.timed ≡ thread.old.timed) }
    ensures grows { Grows context.old context.new }
    ensures about { OnOk result (T.about taker.new ≡ T.about taker.old) }
{
    let shared = is_process_line(script, line);
    let seen = seen_before(shared, note);
    thread
        .process
        .take_in(alloc, script, numbers, history, seen as usize, context)?;
    let reply = reply_of(script, line, shared, thread);
    let accepted = is_accepted(reply);
    run_known(
        alloc, script, numbers, channel, history, line, note, shared, accepted, thread, context,
        drafts, taker,
    )?;
    Ok(())
}

/// Runs a line, of which it is known whether it is a process line and whether it is accepted, behind
/// what its thread has taken in.
#[inline(always)]
pub(crate) fn run_known<T: Taker>(
    alloc: Global,
    script: &Script,
    numbers: &Numbers,
    channel: &Channel,
    history: &[Placed],
    line: Line,
    note: LineNote,
    shared: bool,
    accepted: bool,
    thread: &mut Thread,
    context: &mut Context,
    drafts: &mut Drafts,
    taker: &mut T,
) -> Result<(), OutOfMemory>
    requires numbered { AreNumbered context.old script.now numbers.now }
    requires placed { IsPlaced script.now.attributes script.now.channels script.now.values line }
    requires thread { IsSomeThread context.old script.now history.now thread.old }
    requires timed { thread.old.timed ≡ channel.now.timer }
    requires seen { thread.old.process.count ≡ seen_before script.now history.now line note }
    requires kind { shared ≡ is_process_line script.now line }
    requires answer { accepted ≡ is_accepted (reply_to_line script.now
        (if shared then thread.old.process.board else thread.old.board) line) }
    ensures runs { OnOk result ((state : ThreadState) (previous : ℕ)
        → IsThread context.old script.now history.now thread.old state previous
        → RunsLine context.new script.now history.now thread.new channel.now line note
        (T.has_taken taker.old context.old) (T.has_taken taker.new context.new) state previous) }
    ensures process { OnOk result (thread.new.process ≡ thread.old.process) }
    ensures timed { OnOk result (thread.new.timed ≡ thread.old.timed) }
    ensures grows { Grows context.old context.new }
    ensures about { OnOk result (T.about taker.new ≡ T.about taker.old) }
{
    let _ = history;
    if !accepted {
        return Ok(());
    }
    hand_on(
        alloc, script, numbers, channel, line, note, thread, context, drafts, taker,
    )?;
    if shared {
        return Ok(());
    }
    make_change(alloc, script, numbers, line, note, thread, context)?;
    Ok(())
}

/// How many operations a line has seen before its own.
#[inline(always)]
pub(crate) fn seen_before(shared: bool, note: LineNote) -> u64
    requires { shared ≡ true → 0 < note.seen }
    ensures { result ≡ (if shared then note.seen - 1 else note.seen) }
{
    if shared { note.seen - 1 } else { note.seen }
}

/// The reply to a line by the board that it acts on, if the script knows it.
#[inline(always)]
pub(crate) fn reply_of(script: &Script, line: Line, shared: bool, thread: &Thread) -> Option<Reply>
    ensures { result ≡ reply_to_line script.now
        (if shared then thread.now.process.board else thread.now.board) line }
{
    if shared {
        reply_to_line(script, line, &thread.process.board)
    } else {
        reply_to_line(script, line, &thread.board)
    }
}

/// Hands what a channel takes of an accepted line to a taker.
#[inline(always)]
fn hand_on<T: Taker>(
    alloc: Global,
    script: &Script,
    numbers: &Numbers,
    channel: &Channel,
    line: Line,
    note: LineNote,
    thread: &mut Thread,
    context: &Context,
    drafts: &mut Drafts,
    taker: &mut T,
) -> Result<(), OutOfMemory>
    requires numbered { AreNumbered context.now script.now numbers.now }
    requires places { MayHavePlaces script.now (operation_of line) }
    requires timed { thread.old.timed ≡ channel.now.timer }
    requires shown { HoldsSome context.now script.now thread.old.board }
    requires process { HoldsSome context.now script.now thread.old.process.board }
    ensures taken { OnOk result ((s : Sight) → ShowsThread context.now script.now thread.old note s
        → TakesMore (T.has_taken taker.old context.now) (T.has_taken taker.new context.now)
        (if takes script.now channel.now line
        then snapshot_of script.now s channel.now (operation_of line) ∷ [] else [])) }
    ensures board { OnOk result (thread.new.board ≡ thread.old.board) }
    ensures readings { OnOk result (thread.new.readings ≡ thread.old.readings) }
    ensures process { OnOk result (thread.new.process ≡ thread.old.process) }
    ensures timed { OnOk result (thread.new.timed ≡ thread.old.timed) }
    ensures previous { OnOk result (thread.new.previous
        ≡ (if channel.now.timer && takes script.now channel.now line
        then unwrap_or note.reading 0 else thread.old.previous)) }
    ensures about { OnOk result (T.about taker.new ≡ T.about taker.old) }
{
    if !takes(script, channel, line) {
        return Ok(());
    }
    let reading = note.reading.unwrap_or(0);
    let moment = Moment {
        board: &thread.board,
        readings: &thread.readings,
        process: &thread.process.board,
        reading,
        previous: thread.previous,
        timed: thread.timed,
    };
    let op = operation_of(line);
    let draft = drafts.of(line);
    let snapshot = fill(alloc, script, numbers, channel, op, &moment, context, draft)?;
    taker.take(context, snapshot)?;
    if channel.timer {
        thread.previous = reading;
    }
    Ok(())
}

/// Makes the change of an accepted line that is the thread's own.
#[inline(always)]
fn make_change(
    alloc: Global,
    script: &Script,
    numbers: &Numbers,
    line: Line,
    note: LineNote,
    thread: &mut Thread,
    context: &mut Context,
) -> Result<(), OutOfMemory>
    requires numbered { AreNumbered context.old script.now numbers.now }
    requires places { MayHavePlaces script.now (operation_of line) }
    requires holds { HoldsSome context.old script.now thread.old.board }
    requires accepted { MayAccept script.now thread.old.board (operation_of line) }
    ensures board { OnOk result (HoldsThen context.old context.new script.now
        thread.old.board thread.new.board (λ b. board_changed script.now b (operation_of line))) }
    ensures readings { OnOk result (thread.old.timed ≡ true → thread.new.readings
        ≡ readings_changed script.now thread.old.readings note (operation_of line)) }
    ensures timed { OnOk result (thread.new.timed ≡ thread.old.timed) }
    ensures process { OnOk result (thread.new.process ≡ thread.old.process) }
    ensures previous { OnOk result (thread.new.previous ≡ thread.old.previous) }
    ensures grows { Grows context.old context.new }
{
    match operation_of(line) {
        None => Ok(()),
        Some(op) => {
            operate_accepted(alloc, script, numbers, op, &mut thread.board, context)?;
            if !thread.timed {
                return Ok(());
            }
            let attr = attr_ref(script, op.attr);
            let reading = note.reading.unwrap_or(0);
            thread.readings.follow(op.code, attr, reading)
        }
    }
}
