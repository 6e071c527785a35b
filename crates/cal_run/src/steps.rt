ghost use Rattle.std.specs.Prelude.{◌≡◌, ◌&&◌};
ghost use Rattle.std.specs.List.{list_any};
ghost use Rattle.cal_board.specs.Blackboard.{IsTableReply, reply_to};
ghost use Rattle.cal_run.specs.Lawful.{takes_start_reading};
ghost use Rattle.cal_run.specs.Lines.{attr_ref, clock_after, takes};
ghost use Rattle.cal_run.specs.Steps.{as_reply, is_accepted, reply_to_line};

use crate::lines::{attr_ref, takes};
use cal_board::{Board, BoardReply};
use cal_script::{Line, Reply, Script};
use cal_words::OpCode;

/// The reply to a line, by the board that it acts on. That to a flush is none.
#[inline(always)]
pub fn reply_to_line<N>(script: &Script, line: Line, board: &Board<N>) -> Option<Reply>
    ensures { result ≡ reply_to_line script.now board.now line }
{
    match line {
        Line::Begin { attr, .. } => Some(reply_on(script, OpCode::Begin, attr, board)),
        Line::End { attr } => Some(reply_on(script, OpCode::End, attr, board)),
        Line::Set { attr, .. } => Some(reply_on(script, OpCode::Set, attr, board)),
        Line::Snapshot | Line::Tick { .. } => Some(Reply::Done),
        Line::Flush { .. } => None,
    }
}

#[inline(always)]
fn reply_on<N>(script: &Script, code: OpCode, attr: u32, board: &Board<N>) -> Reply
    ensures { result ≡ as_reply (reply_to board.now code (attr_ref script.now attr)) }
{
    as_reply(board.check(code, attr_ref(script, attr)))
}

#[inline(always)]
fn as_reply(reply: BoardReply) -> Reply
    requires { IsTableReply reply }
    ensures { result ≡ as_reply reply }
{
    match reply {
        BoardReply::Done => Reply::Done,
        BoardReply::Mismatch { top } => Reply::Mismatch { top },
        BoardReply::NotOpen => Reply::NotOpen,
        BoardReply::TreeFull(_) => unreachable!(),
        BoardReply::TooDeep => Reply::TooDeep,
        BoardReply::SlotsFull => Reply::SlotsFull,
    }
}

/// Whether a line with this reply is accepted, and takes snapshots.
#[inline(always)]
pub fn is_accepted(reply: Option<Reply>) -> bool
    ensures { result ≡ is_accepted reply }
{
    match reply {
        Some(Reply::Done) => true,
        _ => false,
    }
}

/// Whether some channel takes a snapshot on a line.
#[inline(always)]
pub fn is_taken(script: &Script, line: Line, accepted: bool) -> bool
    ensures { result ≡ list_any (λ channel. accepted && takes script.now channel line)
        script.now.channels }
{
    script
        .channels
        .as_slice()
        .iter()
        .any(|channel| accepted && takes(script, channel, line))
}

/// Whether a line takes a reading, which is where some channel with the timer takes a snapshot.
#[inline(always)]
pub fn is_read(script: &Script, line: Line, accepted: bool) -> bool
    ensures { result ≡ list_any
        (λ channel. channel.timer && (accepted && takes script.now channel line))
        script.now.channels }
{
    script.channels.as_slice().iter().any(|channel| channel.timer
        && accepted
        && takes(script, channel, line))
}

/// Whether threads take a reading before their first line.
pub fn takes_start_reading(script: &Script) -> bool
    ensures { result ≡ takes_start_reading script.now }
{
    script
        .channels
        .as_slice()
        .iter()
        .any(|channel| channel.timer)
}

/// The script clock behind a line.
#[inline(always)]
pub fn clock_after(clock: u64, line: Line) -> u64
    ensures { result ≡ clock_after clock line }
{
    match line {
        Line::Tick { n } => clock.saturating_add(n.number()),
        _ => clock,
    }
}
