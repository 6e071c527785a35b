ghost use Rattle.std.specs.Prelude.{◌≡◌, ℕ, ◌+◌, ◌*◌, ◌<◌, ◌≤◌, ◌^◌, true, [], ◌&&◌, count_by};
ghost use Rattle.std.specs.Prelude.{flat_map, length, zip, All, OnOk, if◌then◌else◌};
ghost use Rattle.cal_board.specs.Blackboard.{nothing_open};
ghost use Rattle.cal_context.specs.Tree.{Grows};
ghost use Rattle.cal_run.specs.Held.{Holds, HoldsSome, IsProcess};
ghost use Rattle.cal_run.specs.Holding.{AreHeld, HoldsPaths};
ghost use Rattle.cal_run.specs.Lawful.{process_lines};
ghost use Rattle.cal_run.specs.Lines.{is_process_line, takes};
ghost use Rattle.cal_run.specs.Noting.{before_after};
ghost use Rattle.cal_run.specs.Numbers.{AreNumbered};
ghost use Rattle.cal_run.specs.Paths.{held_by_thread};
ghost use Rattle.cal_run.specs.Plain.{plain_history, threads_from};
ghost use Rattle.cal_run.specs.Steps.{ThreadState, reply_to_line};
ghost use Rattle.cal_run.specs.Walking.{WalksLine, every, has_trace, held_to, noted_by};
ghost use Rattle.cal_run.specs.Walking.{taken_by};
ghost use Rattle.cal_script.specs.Valid.{IsPlaced, IsRunnable};

use crate::Numbers;
use crate::lines::{is_process_line, takes};
use crate::paths::{HeldNodes, hold_behind, own_operation};
use crate::placing::{line_in, lines_of_thread};
use crate::process::{Process, placed_at, placed_operation};
use crate::steps::{is_accepted, reply_to_line};
use cal_board::Board;
use cal_context::{Context, NodeNumber};
use cal_script::{Line, Placed, Reply, Script};
use cal_value::OutOfMemory;
use std::alloc::Global;

/// What is kept while the threads are walked one after another.
#[derive(Drop)]
pub(crate) struct Walk {
    pub process: Process,
    /// The nodes that boards of threads held so far, and those that the process's board held.
    pub own: HeldNodes,
    pub placed: HeldNodes,
    /// How many snapshots channels took so far: all, and those that stand in traces.
    pub in_all: u64,
    pub traced: u64,
}

impl Walk {
    /// Before the first thread.
    pub(crate) fn new(alloc: Global) -> Self
        ensures board { result.process.board ≡ nothing_open }
        ensures count { result.process.count ≡ 0 }
        ensures own { result.own.nodes ≡ [] }
        ensures placed { result.placed.nodes ≡ [] }
        ensures in_all { result.in_all ≡ 0 }
        ensures traced { result.traced ≡ 0 }
    {
        Walk {
            process: Process::new(alloc),
            own: HeldNodes::new(alloc),
            placed: HeldNodes::new(alloc),
            in_all: 0,
            traced: 0,
        }
    }
}

/// Walks a line behind all operations that the process has taken in.
fn walk_line(
    alloc: Global,
    script: &Script,
    numbers: &Numbers,
    history: &[Placed],
    line: Line,
    board: &mut Board<NodeNumber>,
    walk: &mut Walk,
    context: &mut Context,
) -> Result<(), OutOfMemory>
    requires runnable { IsRunnable script.now }
    requires numbered { AreNumbered context.old script.now numbers.now }
    requires placed { IsPlaced script.now.attributes script.now.channels script.now.values line }
    requires history { history.now ≡ plain_history script.now }
    requires process { IsProcess context.old script.now history.now walk.old.process }
    requires held { AreHeld context.old walk.old.placed.nodes
        (held_to script.now history.now walk.old.process.count) }
    requires board { HoldsSome context.old script.now board.old }
    requires room { is_process_line script.now line ≡ true
        → walk.old.process.count < length history.now }
    requires few { walk.old.in_all + 16 < 2 ^ 64 }
    requires few_traced { walk.old.traced + 16 < 2 ^ 64 }
    ensures walked { OnOk result ((state : ThreadState) (seen : ℕ)
        → Holds context.old script.now board.old state.board
        → WalksLine context.old context.new script.now line walk.old walk.new board.new state
        seen) }
    ensures process { OnOk result (IsProcess context.new script.now history.now walk.new.process) }
    ensures held { OnOk result (AreHeld context.new walk.new.placed.nodes
        (held_to script.now history.now walk.new.process.count)) }
    ensures count { OnOk result (walk.new.process.count
        ≡ before_after script.now walk.old.process.count line) }
    ensures grows { Grows context.old context.new }
{
    let shared = is_process_line(script, line);
    let reply = reply_behind(script, line, shared, board, &walk.process.board);
    let accepted = is_accepted(reply);
    walk.in_all += takers(script, line, accepted);
    walk.traced += tracers(script, line, accepted);
    place_next(
        alloc,
        script,
        numbers,
        history,
        shared,
        &mut walk.process,
        &mut walk.placed,
        context,
    )?;
    let op = own_operation(script, line);
    hold_behind(alloc, script, numbers, op, board, context, &mut walk.own)
}

/// The reply to a line, by the board that it acts on.
fn reply_behind(
    script: &Script,
    line: Line,
    shared: bool,
    board: &Board<NodeNumber>,
    process: &Board<NodeNumber>,
) -> Option<Reply>
    ensures { result ≡ reply_to_line script.now (if shared then process.now else board.now) line }
{
    if shared {
        reply_to_line(script, line, process)
    } else {
        reply_to_line(script, line, board)
    }
}

/// How many channels take a snapshot on a line.
fn takers(script: &Script, line: Line, accepted: bool) -> u64
    ensures count { result ≡ count_by (λ channel. accepted && takes script.now channel line)
        script.now.channels }
    ensures few { result ≤ length script.now.channels }
{
    script
        .channels
        .as_slice()
        .iter()
        .filter(|channel| accepted && takes(script, *channel, line))
        .count() as u64
}

/// How many of them have trace.
fn tracers(script: &Script, line: Line, accepted: bool) -> u64
    ensures count { result ≡ count_by
        (λ channel. channel.trace && (accepted && takes script.now channel line))
        script.now.channels }
    ensures few { result ≤ length script.now.channels }
{
    script
        .channels
        .as_slice()
        .iter()
        .filter(|channel| channel.trace && accepted && takes(script, *channel, line))
        .count() as u64
}

/// Takes the next operation of a history into the process's board, behind a line of the process,
/// and adds what the board holds behind it.
fn place_next(
    alloc: Global,
    script: &Script,
    numbers: &Numbers,
    history: &[Placed],
    shared: bool,
    process: &mut Process,
    placed: &mut HeldNodes,
    context: &mut Context,
) -> Result<(), OutOfMemory>
    requires runnable { IsRunnable script.now }
    requires numbered { AreNumbered context.old script.now numbers.now }
    requires process { IsProcess context.old script.now history.now process.old }
    requires held { AreHeld context.old placed.old.nodes
        (held_to script.now history.now process.old.count) }
    requires room { shared ≡ true → process.old.count < length history.now }
    ensures process { OnOk result (IsProcess context.new script.now history.now process.new) }
    ensures held { OnOk result (AreHeld context.new placed.new.nodes
        (held_to script.now history.now process.new.count)) }
    ensures count { OnOk result (process.new.count
        ≡ (if shared then process.old.count + 1 else process.old.count)) }
    ensures grows { Grows context.old context.new }
{
    if !shared {
        return Ok(());
    }
    let op = placed_operation(script, placed_at(history, process.count));
    hold_behind(
        alloc,
        script,
        numbers,
        op,
        &mut process.board,
        context,
        placed,
    )?;
    process.count += 1;
    Ok(())
}

/// Walks the lines of a thread, which runs behind all operations that the process has taken in.
fn walk_thread(
    alloc: Global,
    script: &Script,
    numbers: &Numbers,
    history: &[Placed],
    lines: &[Line],
    walk: &mut Walk,
    context: &mut Context,
) -> Result<(), OutOfMemory>
    requires runnable { IsRunnable script.now }
    requires numbered { AreNumbered context.old script.now numbers.now }
    requires placed { All (IsPlaced script.now.attributes script.now.channels script.now.values)
        lines.now }
    requires history { history.now ≡ plain_history script.now }
    requires process { IsProcess context.old script.now history.now walk.old.process }
    requires held { AreHeld context.old walk.old.placed.nodes
        (held_to script.now history.now walk.old.process.count) }
    requires room { walk.old.process.count + length (process_lines script.now lines.now)
        ≤ length history.now }
    requires few { walk.old.in_all + 16 * length lines.now < 2 ^ 64 }
    requires few_traced { walk.old.traced + 16 * length lines.now < 2 ^ 64 }
    ensures own { OnOk result (HoldsPaths context.old context.new walk.old.own.nodes
        walk.new.own.nodes (held_by_thread script.now lines.now)) }
    ensures in_all { OnOk result (walk.new.in_all
        ≡ walk.old.in_all + noted_by script.now every lines.now walk.old.process.count) }
    ensures traced { OnOk result (walk.new.traced
        ≡ walk.old.traced + noted_by script.now has_trace lines.now walk.old.process.count) }
    ensures process { OnOk result (IsProcess context.new script.now history.now walk.new.process) }
    ensures held { OnOk result (AreHeld context.new walk.new.placed.nodes
        (held_to script.now history.now walk.new.process.count)) }
    ensures count { OnOk result (walk.new.process.count
        ≡ walk.old.process.count + length (process_lines script.now lines.now)) }
    ensures grows { Grows context.old context.new }
{
    let mut board = Board::new(alloc);
    for place in 0..lines.len() {
        let line = line_in(lines, place);
        walk_line(
            alloc, script, numbers, history, line, &mut board, walk, context,
        )?;
    }
    Ok(())
}

/// Walks the threads one after another. The process's board goes on from thread to thread.
pub(crate) fn walk_threads(
    alloc: Global,
    script: &Script,
    numbers: &Numbers,
    history: &[Placed],
    walk: &mut Walk,
    context: &mut Context,
) -> Result<(), OutOfMemory>
    requires runnable { IsRunnable script.now }
    requires numbered { AreNumbered context.old script.now numbers.now }
    requires history { history.now ≡ plain_history script.now }
    requires process { IsProcess context.old script.now history.now walk.old.process }
    requires start { walk.old.process.count ≡ 0 }
    requires none { walk.old.in_all ≡ 0 }
    requires none_traced { walk.old.traced ≡ 0 }
    requires held { AreHeld context.old walk.old.placed.nodes
        (held_to script.now history.now walk.old.process.count) }
    ensures own { OnOk result (HoldsPaths context.old context.new walk.old.own.nodes
        walk.new.own.nodes (flat_map (held_by_thread script.now) script.now.threads)) }
    ensures in_all { OnOk result (walk.new.in_all ≡ walk.old.in_all + taken_by script.now every
        (zip script.now.threads (threads_from script.now 0 script.now.threads))) }
    ensures traced { OnOk result (walk.new.traced ≡ walk.old.traced + taken_by script.now has_trace
        (zip script.now.threads (threads_from script.now 0 script.now.threads))) }
    ensures held { OnOk result (AreHeld context.new walk.new.placed.nodes
        (held_to script.now history.now (length history.now))) }
    ensures grows { Grows context.old context.new }
{
    for number in 0..script.threads.len() {
        let lines = lines_of_thread(script, number);
        walk_thread(alloc, script, numbers, history, lines, walk, context)?;
    }
    Ok(())
}
