ghost use Rattle.std.specs.Prelude.{◌≡◌, ◌+◌, ◌<◌, ◌≤◌, All, IfOk, length, vec_len};
ghost use Rattle.cal_board.specs.Standing.{StandsForSome};
ghost use Rattle.cal_hand.specs.Nodes.{NodeAt};
ghost use Rattle.cal_once.specs.Seats.{view};
ghost use Rattle.cal_once.specs.Views.{first_seat};
ghost use Rattle.cal_tree.specs.Seats.{IsTreeSeat, plan_of};

use crate::lines::{FUNCTION, LOOP, reply_to};
use cal_hand::SharedBoard;
use cal_tree::{Tree, TreeSeat};
use cal_value::{OutOfMemory, Seq};
use cal_words::{NodeId, OpCode, Shape};
use std::alloc::Global;
use std::thread;
use std::thread::Threads;

/// A thread's seat, with the node of each path that the thread opened on its board.
#[derive(Drop)]
struct Worker {
    seat: TreeSeat,
    nodes: Seq<NodeId>,
}

/// Opens nine values of `loop` below one of `function`, and notes the node of each.
fn open_ten(
    tree: &Tree,
    seat: &mut TreeSeat,
    board: &mut SharedBoard,
    function: u64,
    nodes: &mut Seq<NodeId>,
) -> Result<(), OutOfMemory>
    requires seat { IsTreeSeat tree.now seat.old }
    requires stands { StandsForSome (NodeAt tree.now seat.old) board.old }
    ensures seat { IsTreeSeat tree.now seat.new }
    ensures stands { StandsForSome (NodeAt tree.now seat.new) board.new }
{
    let _ = reply_to(board, tree, seat, OpCode::Begin, FUNCTION, function);
    board.refs(nodes)?;
    for value in 1..10 {
        let _ = reply_to(board, tree, seat, OpCode::Begin, LOOP, value);
        board.refs(nodes)?;
    }
    Ok(())
}

/// Closes what was opened so.
fn close_ten(tree: &Tree, seat: &mut TreeSeat, board: &mut SharedBoard)
    requires seat { IsTreeSeat tree.now seat.old }
    requires stands { StandsForSome (NodeAt tree.now seat.old) board.old }
    ensures seat { IsTreeSeat tree.now seat.new }
    ensures stands { StandsForSome (NodeAt tree.now seat.new) board.new }
{
    for _value in 1..10 {
        let _ = reply_to(board, tree, seat, OpCode::End, LOOP, 0);
    }
    let _ = reply_to(board, tree, seat, OpCode::End, FUNCTION, 0);
}

/// Opens a hundred paths on a board, ten for each of ten values of `function`.
fn open_hundred(
    tree: &Tree,
    seat: &mut TreeSeat,
    board: &mut SharedBoard,
    nodes: &mut Seq<NodeId>,
) -> Result<(), OutOfMemory>
    requires seat { IsTreeSeat tree.now seat.old }
    requires stands { StandsForSome (NodeAt tree.now seat.old) board.old }
    ensures seat { IsTreeSeat tree.now seat.new }
{
    for function in 0..10 {
        open_ten(tree, seat, board, function, nodes)?;
        close_ten(tree, seat, board);
    }
    Ok(())
}

/// The nodes of the hundred paths, by a seat and a new board.
fn nodes_by(alloc: Global, tree: &Tree, seat: &mut TreeSeat) -> Result<Seq<NodeId>, OutOfMemory>
    requires seat { IsTreeSeat tree.now seat.old }
    ensures seat { IsTreeSeat tree.now seat.new }
{
    let mut board = SharedBoard::new(alloc)?;
    let mut nodes = Seq::new(alloc);
    let opened = open_hundred(tree, seat, &mut board, &mut nodes);
    drop(board);
    opened?;
    Ok(nodes)
}

/// A thread's work. Where it runs out of memory, its list stays empty.
fn work(alloc: Global, tree: &Tree, worker: &mut Worker)
    requires seat { IsTreeSeat tree.now worker.old.seat }
    ensures seat { IsTreeSeat tree.now worker.new.seat }
{
    if let Ok(nodes) = nodes_by(alloc, tree, &mut worker.seat) {
        worker.nodes = nodes;
    }
}

fn work_all<R: Threads + Sync>(rt: &R, alloc: Global, tree: &Tree, workers: &mut [Worker])
    requires seats { All (λ w. IsTreeSeat tree.now w.seat) workers.old }
    requires few { (0 < length workers.old) × (length workers.old ≤ 8) }
    ensures { All (λ w. IsTreeSeat tree.now w.seat) workers.new }
{
    let threads = workers.len();
    thread::for_each_mut(
        rt,
        workers,
        threads,
        &|_number, worker| work(alloc, tree, worker),
    );
}

/// A worker with a seat that is split off from the first one.
fn hire_one(alloc: Global, tree: &Tree, first: &mut TreeSeat) -> Worker
    requires seat { IsTreeSeat tree.now first.old }
    requires first { (view first.old).number ≡ 0 }
    requires left { length (view first.old).others + 1 < (plan_of tree.now).shape.arenas }
    ensures seat { IsTreeSeat tree.now first.new }
    ensures first { (view first.new).number ≡ 0 }
    ensures others { length (view first.new).others ≡ length (view first.old).others + 1 }
    ensures worker { IsTreeSeat tree.now result.seat }
{
    Worker {
        seat: tree.split(first),
        nodes: Seq::new(alloc),
    }
}

fn hire(
    alloc: Global,
    tree: &Tree,
    first: &mut TreeSeat,
    count: usize,
) -> Result<Vec<Worker>, OutOfMemory>
    requires seat { IsTreeSeat tree.now first.old }
    requires fresh { view first.old ≡ first_seat (plan_of tree.now) }
    requires enough { count < (plan_of tree.now).shape.arenas }
    ensures seat { IsTreeSeat tree.now first.new × ((view first.new).number ≡ 0) }
    ensures workers { IfOk result (λ v. (vec_len v ≡ count)
        × All (λ w. IsTreeSeat tree.now w.seat) v.items) }
{
    let mut workers = Vec::new(alloc);
    for _number in 0..count {
        let worker = hire_one(alloc, tree, first);
        workers.push(worker)?;
    }
    Ok(workers)
}

/// Joins the workers, and gives the nodes that each of them found.
fn dismiss(
    alloc: Global,
    tree: &Tree,
    first: &mut TreeSeat,
    mut workers: Vec<Worker>,
) -> Result<Vec<Seq<NodeId>>, OutOfMemory>
    requires seat { IsTreeSeat tree.now first.old × ((view first.old).number ≡ 0) }
    requires workers { All (λ w. IsTreeSeat tree.now w.seat) workers.items }
    ensures seat { IsTreeSeat tree.now first.new }
{
    let mut found = Vec::new(alloc);
    while let Some(worker) = workers.pop() {
        let Worker { seat, nodes } = worker;
        tree.join(first, seat);
        found.push(nodes)?;
    }
    Ok(found)
}

/// The nodes of the paths that so many threads opened side by side, by each of them.
fn opened_by<R: Threads + Sync>(
    rt: &R,
    alloc: Global,
    tree: &Tree,
    first: &mut TreeSeat,
    count: usize,
) -> Result<Vec<Seq<NodeId>>, OutOfMemory>
    requires seat { IsTreeSeat tree.now first.old }
    requires fresh { view first.old ≡ first_seat (plan_of tree.now) }
    requires enough { count < (plan_of tree.now).shape.arenas }
    requires few { (0 < count) × (count ≤ 8) }
    ensures { IsTreeSeat tree.now first.new }
{
    let mut workers = hire(alloc, tree, first, count)?;
    work_all(rt, alloc, tree, workers.as_mut_slice());
    dismiss(alloc, tree, first, workers)
}

fn are_all(lists: &[Seq<NodeId>], nodes: &Seq<NodeId>) -> bool {
    for list in lists {
        if *list != *nodes {
            return false;
        }
    }
    true
}

/// Whether so many threads open a hundred paths with the nodes that the first seat finds, once they
/// are joined, and make no other node.
fn have_one_node_each<R: Threads + Sync>(
    rt: &R,
    alloc: Global,
    count: usize,
) -> Result<bool, OutOfMemory>
    requires { (0 < count) × (count ≤ 4) }
{
    let shape = Shape {
        slots: 500,
        homes: 499,
        arena: 600,
        arenas: 5,
    };
    let (tree, mut first) = Tree::new(alloc, shape)?;
    let lists = opened_by(rt, alloc, &tree, &mut first, count);
    let nodes = nodes_by(alloc, &tree, &mut first);
    let made = tree.count_nodes(&mut first);
    drop(first);
    drop(tree);
    let (lists, nodes) = (lists?, nodes?);
    Ok(
        made == 100
            && nodes.len() == 100
            && lists.len() == count
            && are_all(lists.as_slice(), &nodes),
    )
}

#[test]
fn joined_threads_have_one_node_for_each_path(rt: HostRuntime) {
    assert_eq!(rt; have_one_node_each(&rt, rt.alloc(), 2), Ok(true));
    assert_eq!(rt; have_one_node_each(&rt, rt.alloc(), 4), Ok(true));
}
