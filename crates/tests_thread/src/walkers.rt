//! Two threads that go through their lines in a chosen order.
ghost use Rattle.std.specs.Prelude.{◌≡◌, ◌+◌, ◌<◌, OnOk, length};
ghost use Rattle.cal_plog.specs.Seats as history;
ghost use Rattle.cal_process.specs.Replicas.{IsCommon};
ghost use Rattle.cal_script.specs.Valid.{IsRunnable};
ghost use Rattle.cal_thread.specs.Hiring.{HasHired};
ghost use Rattle.cal_tree.specs.Seats as nodes;
ghost use Rattle.tests_thread.specs.Behind.{IsBehind};

use crate::lines::do_line;
use cal_board::BoardReply;
use cal_plog::LogSeat;
use cal_process::Common;
use cal_run::{attr_ref, line_at};
use cal_script::{Placed, Reply, Script};
use cal_thread::Thread;
use cal_tree::TreeSeat;
use cal_value::{OutOfMemory, Seq};
use cal_words::{NodeId, OpCode};
use std::alloc::Global;

/// A thread, and how many of its lines are done.
#[derive(Drop)]
pub(crate) struct Walker {
    pub thread: Thread,
    pub done: u32,
}

/// What a thread's next line is answered, how many operations the thread has seen then, and whether
/// the attribute 0 is open on its replica of the process's board.
#[derive(Clone, Copy)]
pub(crate) struct Row {
    pub thread: u32,
    pub reply: Option<Reply>,
    pub seen: u64,
    pub open: bool,
}

/// A thread before its first line.
fn hire(
    alloc: Global,
    common: &Common<'_>,
    number: u32,
    tree: &mut TreeSeat,
    log: &mut LogSeat,
) -> Walker
    requires hired { HasHired common.now tree.old log.old number }
    requires nodes { number + 1 < (nodes.plan_of common.now.tree).shape.arenas }
    requires history { number + 1 < (history.plan_of common.now.log).shape.arenas }
    ensures hired { HasHired common.now tree.new log.new (number + 1) }
    ensures behind { IsBehind common.now result.thread result.done }
{
    Walker {
        thread: Thread::hire(alloc, common, number, false, tree, log),
        done: 0,
    }
}

/// Does a thread's next line, if there is one, and gives its reply.
fn step(
    alloc: Global,
    common: &Common<'_>,
    walker: &mut Walker,
) -> Result<Option<Reply>, OutOfMemory>
    requires common { IsCommon common.now }
    requires behind { IsBehind common.now walker.old.thread walker.old.done }
    ensures behind { OnOk result (IsBehind common.now walker.new.thread walker.new.done) }
{
    let Some(number) = walker.done.checked_add(1) else {
        return Ok(None);
    };
    let placed = Placed {
        thread: walker.thread.number,
        line: number,
    };
    let Some(line) = line_at(common.script, placed) else {
        return Ok(None);
    };
    let reply = do_line(alloc, common, &mut walker.thread, number, line, 0)?;
    walker.done = number;
    Ok(reply)
}

/// Whether a thread's next line does what a row says.
fn is_right(
    alloc: Global,
    common: &Common<'_>,
    walker: &mut Walker,
    row: &Row,
) -> Result<bool, OutOfMemory>
    requires common { IsCommon common.now }
    requires behind { IsBehind common.now walker.old.thread walker.old.done }
    ensures behind { OnOk result (IsBehind common.now walker.new.thread walker.new.done) }
{
    let reply = step(alloc, common, walker)?;
    let seen = walker.thread.process.seen;
    let open = is_open(common.script, walker);
    Ok(reply == row.reply && seen == row.seen && open == row.open)
}

/// Whether the attribute 0 is open on a thread's replica of the process's board.
fn is_open(script: &Script, walker: &Walker) -> bool {
    let reply = walker
        .thread
        .process
        .board
        .check(OpCode::End, attr_ref(script, 0));
    reply == BoardReply::Done
}

/// The same of the one of two threads that a row names.
fn does_row(
    alloc: Global,
    common: &Common<'_>,
    first: &mut Walker,
    second: &mut Walker,
    row: &Row,
) -> Result<bool, OutOfMemory>
    requires common { IsCommon common.now }
    requires first { IsBehind common.now first.old.thread first.old.done }
    requires second { IsBehind common.now second.old.thread second.old.done }
    ensures first { OnOk result (IsBehind common.now first.new.thread first.new.done) }
    ensures second { OnOk result (IsBehind common.now second.new.thread second.new.done) }
{
    if row.thread == 0 {
        let right = is_right(alloc, common, first, row)?;
        Ok(right)
    } else {
        let right = is_right(alloc, common, second, row)?;
        Ok(right)
    }
}

/// The first row that says something else.
fn wrong_row(
    alloc: Global,
    common: &Common<'_>,
    first: &mut Walker,
    second: &mut Walker,
    rows: &[Row],
) -> Result<Option<usize>, OutOfMemory>
    requires common { IsCommon common.now }
    requires first { IsBehind common.now first.old.thread first.old.done }
    requires second { IsBehind common.now second.old.thread second.old.done }
{
    for place in 0..rows.len() {
        if !does_row(alloc, common, first, second, &rows[place])? {
            return Ok(Some(place));
        }
    }
    Ok(None)
}

/// Whether the replicas of two threads hold the same one node.
fn share_one_node(alloc: Global, first: &Walker, second: &Walker) -> Result<bool, OutOfMemory> {
    let one = nodes(alloc, first)?;
    let other = nodes(alloc, second)?;
    Ok(one.len() == 1 && one == other)
}

/// The nodes that a thread's replica of the process's board holds.
fn nodes(alloc: Global, walker: &Walker) -> Result<Seq<NodeId>, OutOfMemory> {
    let mut nodes = Vec::new(alloc);
    walker.thread.process.board.refs(&mut nodes)?;
    Ok(Seq::from_vec(nodes))
}

/// How a walk of two threads comes out.
#[derive(Clone, Copy, Debug, PartialEq, Eq)]
pub(crate) struct Walk {
    /// The first row that says something else.
    pub wrong: Option<usize>,
    /// Whether the replicas hold the same one node at the end.
    pub shared: bool,
}

/// Goes through rows with two threads, and looks at what they hold then.
fn walk_rows(
    alloc: Global,
    common: &Common<'_>,
    first: &mut Walker,
    second: &mut Walker,
    rows: &[Row],
) -> Result<Walk, OutOfMemory>
    requires common { IsCommon common.now }
    requires first { IsBehind common.now first.old.thread first.old.done }
    requires second { IsBehind common.now second.old.thread second.old.done }
{
    let wrong = wrong_row(alloc, common, first, second, rows)?;
    let shared = share_one_node(alloc, first, second)?;
    Ok(Walk { wrong, shared })
}

/// The walk of the two threads of a script.
pub(crate) fn walk_two(alloc: Global, script: &Script, rows: &[Row]) -> Result<Walk, OutOfMemory>
    requires runnable { IsRunnable script.now }
    requires two { length script.now.threads ≡ 2 }
{
    let (common, mut tree, mut log) = Common::new(alloc, script)?;
    let mut first = hire(alloc, &common, 0, &mut tree, &mut log);
    let mut second = hire(alloc, &common, 1, &mut tree, &mut log);
    let walked = walk_rows(alloc, &common, &mut first, &mut second, rows);
    drop(first);
    drop(second);
    drop(tree);
    drop(log);
    drop(common);
    walked
}
