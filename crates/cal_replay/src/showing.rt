//! A line that is shown to the channels of its thread.
ghost use Rattle.std.specs.Prelude.{◌≡◌, ℕ, ◌+◌, List, IfOk, OnOk, true};
ghost use Rattle.cal_channel.specs.Closing.{HasRead};
ghost use Rattle.cal_channel.specs.Values.{HasRoom};
ghost use Rattle.cal_process.specs.Replicas.{IsCommon};
ghost use Rattle.cal_replay.specs.Showing.{AreShown, HaveRoomFor, IsSaid, IsShown, MayShow};
ghost use Rattle.cal_replay.specs.Showing.{OnlyReads};
ghost use Rattle.cal_run.specs.Lines.{operation_of};
ghost use Rattle.cal_run.specs.Numbers.{AreNamedInSome};
ghost use Rattle.cal_run.specs.Steps.{ThreadState};
ghost use Rattle.cal_script.specs.Valid.{IsPlaced};
ghost use Rattle.cal_thread.specs.Threads.{HasState, IsThread};
ghost use Rattle.cal_words.specs.declared.op.OpRec as words;

use cal_channel::{ClosedNode, ClosedNodes, ThreadChannel};
use cal_process::Common;
use cal_run::{Moment, Numbers, Prober, is_taken, operation_of};
use cal_script::{Channel, Line};
use cal_thread::Thread;
use cal_value::OutOfMemory;
use std::alloc::Global;

/// A line as channels are shown it: whether it is accepted, and its reading, 0 where it has none.
#[derive(Clone, Copy)]
pub struct ShownLine {
    pub line: Line,
    pub accepted: bool,
    pub reading: u64,
}

/// Shows a line to each channel of its thread, behind the line's look and before its change: those
/// that take a snapshot on it take one. It takes memory for snapshots, and for the words of a node
/// that is read, for which `room` serves again. The channels may not be shown another
/// line behind an `Err`.
pub fn show<P: Prober>(
    alloc: Global,
    common: &Common<'_>,
    numbers: &Numbers,
    thread: &mut Thread,
    shown: ShownLine,
    channels: &mut [ThreadChannel],
    prober: &P,
    room: &mut Vec<u64>,
) -> Result<(), OutOfMemory>
    requires common { IsCommon common.now }
    requires named { AreNamedInSome common.now.script.now numbers.now }
    requires thread { IsSaid common.now thread.old }
    requires placed { IsPlaced common.now.script.now.attributes common.now.script.now.channels
        common.now.script.now.values shown.line }
    requires may { MayShow common.now.script.now thread.old channels.old }
    ensures shown { OnOk result (AreShown common.now numbers.now thread.new shown
        channels.old channels.new) }
    ensures room { OnOk result ((left : ℕ) → HaveRoomFor (left + 1) channels.old
        → HaveRoomFor left channels.new) }
    ensures reads { OnOk result (OnlyReads thread.old thread.new) }
    ensures state { OnOk result ((h : List words.OpRec) (state : ThreadState)
        → HasState common.now thread.old h state → HasState common.now thread.new h state) }
    ensures thread { OnOk result ((done : ℕ) (h : List words.OpRec) (state : ThreadState)
        → IsThread common.now thread.old done h state
        → IsThread common.now thread.new done h state) }
{
    if !is_taken(common.script, shown.line, shown.accepted) {
        return Ok(());
    }
    let closed = read_closed(alloc, common, thread, shown.line, room)?;
    show_all(
        alloc, common, numbers, thread, shown, &closed, channels, prober,
    )?;
    Ok(())
}

/// Reads the node that a line closes, if it closes one. `room` serves for it.
fn read_closed(
    alloc: Global,
    common: &Common<'_>,
    thread: &mut Thread,
    line: Line,
    room: &mut Vec<u64>,
) -> Result<Option<ClosedNode>, OutOfMemory>
    requires thread { IsSaid common.now thread.old }
    ensures read { IfOk result (λ closed. HasRead common.now.tree thread.new.tree
        common.now.script.now closed thread.new.board thread.new.process.board
        (operation_of line)) }
    ensures reads { OnOk result (OnlyReads thread.old thread.new) }
    ensures state { OnOk result ((h : List words.OpRec) (state : ThreadState)
        → HasState common.now thread.old h state → HasState common.now thread.new h state) }
{
    let closed = cal_channel::closed(
        alloc,
        common.script,
        &common.tree,
        &mut thread.tree,
        operation_of(line),
        &thread.board,
        &thread.process.board,
        room,
    )?;
    Ok(closed)
}

/// Shows a line to each channel in turn.
fn show_all<P: Prober>(
    alloc: Global,
    common: &Common<'_>,
    numbers: &Numbers,
    thread: &Thread,
    shown: ShownLine,
    closed: &Option<ClosedNode>,
    channels: &mut [ThreadChannel],
    prober: &P,
) -> Result<(), OutOfMemory>
    requires common { IsCommon common.now }
    requires named { AreNamedInSome common.now.script.now numbers.now }
    requires thread { IsSaid common.now thread.now }
    requires placed { IsPlaced common.now.script.now.attributes common.now.script.now.channels
        common.now.script.now.values shown.line }
    requires may { MayShow common.now.script.now thread.now channels.old }
    requires read { HasRead common.now.tree thread.now.tree common.now.script.now closed.now
        thread.now.board thread.now.process.board (operation_of shown.line) }
    ensures { OnOk result (AreShown common.now numbers.now thread.now shown
        channels.old channels.new) }
{
    for place in 0..channels.len() {
        let channel = &common.script.channels.as_slice()[place];
        show_to(
            alloc,
            common,
            numbers,
            thread,
            shown,
            closed,
            channel,
            &mut channels[place],
            prober,
        )?;
    }
    Ok(())
}

/// Shows a line to one channel.
fn show_to<P: Prober>(
    alloc: Global,
    common: &Common<'_>,
    numbers: &Numbers,
    thread: &Thread,
    shown: ShownLine,
    closed: &Option<ClosedNode>,
    channel: &Channel,
    kept: &mut ThreadChannel,
    prober: &P,
) -> Result<(), OutOfMemory>
    requires common { IsCommon common.now }
    requires named { AreNamedInSome common.now.script.now numbers.now }
    requires thread { IsSaid common.now thread.now }
    requires placed { IsPlaced common.now.script.now.attributes common.now.script.now.channels
        common.now.script.now.values shown.line }
    requires timed { channel.now.timer ≡ true → thread.now.timed ≡ true }
    requires room { HasRoom kept.old }
    requires read { HasRead common.now.tree thread.now.tree common.now.script.now closed.now
        thread.now.board thread.now.process.board (operation_of shown.line) }
    ensures { OnOk result (IsShown common.now numbers.now thread.now shown channel.now
        kept.old kept.new) }
{
    let moment = Moment {
        board: &thread.board,
        readings: &thread.readings,
        process: &thread.process.board,
        reading: shown.reading,
        previous: kept.previous(),
        timed: thread.timed,
    };
    let nodes = ClosedNodes {
        tree: &common.tree,
        seat: &thread.tree,
        closed,
    };
    let taken = kept.take_if(
        alloc,
        common.script,
        numbers,
        channel,
        shown.line,
        shown.accepted,
        &moment,
        &nodes,
        prober,
    );
    let ClosedNodes {
        tree: _,
        seat: _,
        closed: _,
    } = nodes;
    taken?;
    Ok(())
}
