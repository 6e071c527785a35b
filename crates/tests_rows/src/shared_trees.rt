ghost use Rattle.std.specs.Prelude.{◌≡◌, ◌+◌, ◌<◌, ◌≤◌, All, IfOk, length, vec_len};
ghost use Rattle.cal_once.specs.Seats.{view};
ghost use Rattle.cal_once.specs.Views.{first_seat};
ghost use Rattle.cal_tree.specs.Seats.{IsTreeSeat, plan_of};

use crate::held::is_true;
use cal_once::Shape;
use cal_tree::{Tree, TreeFull, TreeSeat};
use cal_value::{OutOfMemory, Variant};
use cal_words::NodeId;
use std::alloc::Global;
use std::thread;
use std::thread::Threads;

#[derive(Drop)]
struct Worker {
    seat: TreeSeat,
    nodes: Vec<NodeId>,
}

// Ten paths, each one entry longer than the one before. The attributes are numbered from `from` on.
fn dig(tree: &Tree, worker: &mut Worker, from: u32) -> Result<(), TreeFull>
    requires seat { IsTreeSeat tree.now worker.old.seat }
    requires few { from ≤ 90 }
    ensures { IsTreeSeat tree.now worker.new.seat }
{
    let mut node = NodeId(0);
    for attr in from..from + 10 {
        node = tree.child(&mut worker.seat, node, attr, &Variant::Bool(true))?;
        let _ = worker.nodes.push(node);
    }
    Ok(())
}

// A hundred paths: ten ways down, of ten entries each.
fn grow(tree: &Tree, worker: &mut Worker)
    requires { IsTreeSeat tree.now worker.old.seat }
    ensures { IsTreeSeat tree.now worker.new.seat }
{
    for way in 0..10 {
        let _ = dig(tree, worker, 10 * way);
    }
}

fn grow_all<R: Threads + Sync>(rt: &R, tree: &Tree, workers: &mut [Worker])
    requires seats { All (λ w. IsTreeSeat tree.now w.seat) workers.old }
    requires few { (0 < length workers.old) × (length workers.old ≤ 8) }
    ensures { All (λ w. IsTreeSeat tree.now w.seat) workers.new }
{
    let threads = workers.len();
    thread::for_each_mut(rt, workers, threads, &|_number, worker| grow(tree, worker));
}

// A worker with a seat that is split off from the first one.
fn hire_one(alloc: Global, tree: &Tree, first: &mut TreeSeat) -> Result<Worker, OutOfMemory>
    requires seat { IsTreeSeat tree.now first.old }
    requires first { (view first.old).number ≡ 0 }
    requires left { length (view first.old).others + 1 < (plan_of tree.now).shape.arenas }
    ensures seat { IsTreeSeat tree.now first.new }
    ensures first { (view first.new).number ≡ 0 }
    ensures others { length (view first.new).others ≡ length (view first.old).others + 1 }
    ensures worker { IfOk result (λ w. IsTreeSeat tree.now w.seat) }
{
    let seat = tree.split(first);
    let nodes = Vec::with_capacity(alloc, 100)?;
    Ok(Worker { seat, nodes })
}

fn hire(
    alloc: Global,
    tree: &Tree,
    first: &mut TreeSeat,
    count: usize,
) -> Result<Vec<Worker>, OutOfMemory>
    requires seat { IsTreeSeat tree.now first.old }
    requires fresh { view first.old ≡ first_seat (plan_of tree.now) }
    requires enough { count < (plan_of tree.now).shape.arenas }
    ensures seat { IsTreeSeat tree.now first.new × ((view first.new).number ≡ 0) }
    ensures workers { IfOk result (λ v. (vec_len v ≡ count)
        × All (λ w. IsTreeSeat tree.now w.seat) v.items) }
{
    let mut workers = Vec::new(alloc);
    for _number in 0..count {
        let worker = hire_one(alloc, tree, first)?;
        workers.push(worker)?;
    }
    Ok(workers)
}

// Joins the workers.
fn dismiss(tree: &Tree, first: &mut TreeSeat, mut workers: Vec<Worker>)
    requires seat { IsTreeSeat tree.now first.old × ((view first.old).number ≡ 0) }
    requires workers { All (λ w. IsTreeSeat tree.now w.seat) workers.items }
    ensures seat { IsTreeSeat tree.now first.new }
{
    while let Some(worker) = workers.pop() {
        let Worker { seat, nodes } = worker;
        drop(nodes);
        tree.join(first, seat);
    }
    workers.destroy_empty();
}

// Whether each worker found the same hundred nodes.
fn all_agree(workers: &[Worker]) -> bool {
    let Some(first) = workers.first() else {
        return false;
    };
    for worker in workers {
        if worker.nodes.as_slice() != first.nodes.as_slice() {
            return false;
        }
    }
    first.nodes.len() == 100
}

fn work<R: Threads + Sync>(
    rt: &R,
    alloc: Global,
    tree: &Tree,
    first: &mut TreeSeat,
    count: usize,
) -> Result<bool, OutOfMemory>
    requires seat { IsTreeSeat tree.now first.old }
    requires fresh { view first.old ≡ first_seat (plan_of tree.now) }
    requires enough { count < (plan_of tree.now).shape.arenas }
    requires few { (0 < count) × (count ≤ 8) }
    ensures { IsTreeSeat tree.now first.new }
{
    let mut workers = hire(alloc, tree, first, count)?;
    grow_all(rt, tree, workers.as_mut_slice());
    let agree = all_agree(workers.as_slice());
    dismiss(tree, first, workers);
    Ok(agree)
}

// Whether so many workers agree on the nodes, and no other was made.
fn is_grown_by<R: Threads + Sync>(rt: &R, alloc: Global, count: usize) -> Result<bool, OutOfMemory>
    requires { (0 < count) × (count ≤ 4) }
{
    let shape = Shape {
        slots: 500,
        homes: 499,
        arena: 600,
        arenas: 5,
    };
    let (tree, mut first) = Tree::new(alloc, shape)?;
    let agree = work(rt, alloc, &tree, &mut first, count);
    let nodes = tree.count_nodes(&mut first);
    drop(first);
    drop(tree);
    Ok(agree? && nodes == 100)
}

#[test]
fn side_by_side_each_path_has_one_node(rt: HostRuntime) {
    is_true(&rt, is_grown_by(&rt, rt.alloc(), 2));
    is_true(&rt, is_grown_by(&rt, rt.alloc(), 4));
}
