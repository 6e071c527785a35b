//! Calls for a child of the context tree, by one, two and four seats.
ghost use Rattle.std.specs.Prelude.{◌≡◌, ◌+◌, ◌^◌, ◌<◌, ◌≤◌, All, IfOk, length, vec_len};
ghost use Rattle.cal_words.specs.Words.{text_length};
ghost use Rattle.cal_once.specs.Layout.{IsShape};
ghost use Rattle.cal_once.specs.Seats.{view};
ghost use Rattle.cal_once.specs.Views.{first_seat};
ghost use Rattle.cal_tree.specs.Seats.{IsTreeSeat, plan_of};
ghost use Rattle.bench.specs.Workers.{IsWorker};

use anyhow::Result;
use cal_once::Shape;
use cal_tree::{Tree, TreeSeat};
use cal_value::{Text, Variant};
use cal_words::NodeId;
use std::alloc::Global;
use std::rt::Clock;
use std::thread;
use std::thread::Threads;
use std::time::{Duration, Instant};

/// How many calls for a child are timed, by all seats together.
const CALLS: u32 = 1_000_000;

/// The shape that a run of one thread has for a million nodes of ten words.
const ONE: Shape = Shape {
    slots: 5_000_001,
    homes: 5_000_001,
    arena: 10_000_000,
    arenas: 2,
};

const TWO: Shape = Shape {
    slots: 3_750_001,
    homes: 3_750_001,
    arena: 5_000_000,
    arenas: 3,
};

const FOUR: Shape = Shape {
    slots: 3_125_001,
    homes: 3_125_001,
    arena: 2_500_000,
    arenas: 5,
};

const SLOTS: u64 = 1 << 21;

/// What is made: children with values that begin so, by so many seats side by side, of which each
/// makes its own nodes or all make the same.
#[derive(Clone, Copy)]
struct Task {
    name: &'static str,
    front: &'static str,
    seats: u32,
    shared: bool,
}

/// Times a million calls for a child that make nodes, and as many that find them, by one, two and
/// four seats.
pub fn measure<R: Clock + Print + AllocGlobal + Threads + Sync>(rt: &R) -> Result<()> {
    time_values(rt, "names", "main")?;
    time_values(rt, "texts", "solver/src/of/a/long/path/main.cpp, line ")
}

fn time_values<R: Clock + Print + AllocGlobal + Threads + Sync>(
    rt: &R,
    name: &'static str,
    front: &'static str,
) -> Result<()> {
    let task = Task {
        name,
        front,
        seats: 1,
        shared: false,
    };
    time_shapes(rt, ONE, task)?;
    time_shapes(rt, TWO, Task { seats: 2, ..task })?;
    time_shapes(rt, FOUR, Task { seats: 4, ..task })?;
    time_shapes(
        rt,
        TWO,
        Task {
            seats: 2,
            shared: true,
            ..task
        },
    )
}

// In a run's own shape, and in one with an odd number of homes, one less than the slots.
fn time_shapes<R: Clock + Print + AllocGlobal + Threads + Sync>(
    rt: &R,
    shape: Shape,
    task: Task,
) -> Result<()>
    requires shape { IsShape shape × (2 ^ 21 ≤ shape.slots) }
    requires seats { (0 < task.seats) × (task.seats ≤ 4) × (task.seats < shape.arenas) }
{
    time_tree(rt, "a run's shape", shape, task)?;
    let odd = Shape {
        slots: SLOTS,
        homes: SLOTS - 1,
        ..shape
    };
    time_tree(rt, "odd homes", odd, task)
}

fn time_tree<R: Clock + Print + AllocGlobal + Threads + Sync>(
    rt: &R,
    layout: &str,
    shape: Shape,
    task: Task,
) -> Result<()>
    requires shape { IsShape shape }
    requires seats { (0 < task.seats) × (task.seats ≤ 4) × (task.seats < shape.arenas) }
{
    let (tree, mut first) = Tree::new(rt.alloc(), shape)?;
    let timed = time_workers(rt, &tree, &mut first, task);
    let nodes = tree.count_nodes(&mut first);
    drop(first);
    drop(tree);
    report(rt, layout, task, nodes, timed?)
}

fn report(
    rt: &impl Print,
    layout: &str,
    task: Task,
    nodes: u64,
    times: (Duration, Duration),
) -> Result<()> {
    let Task { name, seats, .. } = task;
    let whose = if task.shared {
        "the same nodes"
    } else {
        "own nodes"
    };
    println!(rt;
        "{name}; {layout}; {seats}; {whose}; {nodes}; {}; {}",
        times.0.as_millis(),
        times.1.as_millis()
    )?;
    Ok(())
}

// How long the workers take to make the nodes, and how long to find them.
fn time_workers<R: Clock + AllocGlobal + Threads + Sync>(
    rt: &R,
    tree: &Tree,
    first: &mut TreeSeat,
    task: Task,
) -> Result<(Duration, Duration)>
    requires seat { IsTreeSeat tree.now first.old }
    requires fresh { view first.old ≡ first_seat (plan_of tree.now) }
    requires seats { (0 < task.seats) × (task.seats ≤ 4)
        × (task.seats < (plan_of tree.now).shape.arenas) }
    ensures { IsTreeSeat tree.now first.new }
{
    let mut workers = hire(rt.alloc(), tree, first, task)?;
    let timed = time_twice(rt, tree, workers.as_mut_slice());
    drop(workers);
    timed
}

fn time_twice<R: Clock + Threads + Sync>(
    rt: &R,
    tree: &Tree,
    workers: &mut [Worker],
) -> Result<(Duration, Duration)>
    requires workers { All (IsWorker tree.now) workers.old }
    requires some { 0 < length workers.old }
{
    let new = time_all(rt, tree, workers)?;
    let known = time_all(rt, tree, workers)?;
    Ok((new, known))
}

#[derive(Drop)]
struct Worker {
    seat: TreeSeat,
    values: Vec<Variant>,
}

// A worker for each seat, with an equal share of the values.
fn hire(alloc: Global, tree: &Tree, first: &mut TreeSeat, task: Task) -> Result<Vec<Worker>>
    requires seat { IsTreeSeat tree.now first.old }
    requires fresh { view first.old ≡ first_seat (plan_of tree.now) }
    requires seats { (0 < task.seats) × (task.seats ≤ 4)
        × (task.seats < (plan_of tree.now).shape.arenas) }
    ensures seat { IsTreeSeat tree.now first.new }
    ensures workers { IfOk result (λ v. (vec_len v ≡ task.seats)
        × All (IsWorker tree.now) v.items) }
{
    let share = CALLS / task.seats;
    let mut workers = Vec::new(alloc);
    for number in 0..task.seats {
        let from = if task.shared {
            0
        } else {
            number.wrapping_mul(share)
        };
        let values = values(alloc, task.front, from, share)?;
        let seat = another(tree, first);
        workers.push(Worker { seat, values })?;
    }
    Ok(workers)
}

// A seat that is split off from the first one.
fn another(tree: &Tree, first: &mut TreeSeat) -> TreeSeat
    requires seat { IsTreeSeat tree.now first.old }
    requires first { (view first.old).number ≡ 0 }
    requires left { length (view first.old).others + 1 < (plan_of tree.now).shape.arenas }
    ensures seats { IsTreeSeat tree.now first.new × IsTreeSeat tree.now result }
    ensures first { (view first.new).number ≡ 0 }
    ensures others { length (view first.new).others ≡ length (view first.old).others + 1 }
{
    tree.split(first)
}

// The values of so many numbers.
fn values(alloc: Global, front: &str, from: u32, count: u32) -> Result<Vec<Variant>>
    ensures { IfOk result (λ vs. All (λ v. text_length v < 2 ^ 32) vs.items) }
{
    let mut all = Vec::new(alloc);
    for number in 0..count {
        all.push(value(alloc, front, from.wrapping_add(number))?)?;
    }
    Ok(all)
}

// A text of at most 100 bytes.
fn value(alloc: Global, front: &str, number: u32) -> Result<Variant>
    ensures { IfOk result (λ v. text_length v < 2 ^ 32) }
{
    let text = Text::from_string(format!(in alloc; "{front}{number}")?);
    if text.len() > 100 {
        return Ok(Variant::Bool(true));
    }
    Ok(Variant::Text(text))
}

// All workers go through their values, side by side.
fn time_all<R: Clock + Threads + Sync>(
    rt: &R,
    tree: &Tree,
    workers: &mut [Worker],
) -> Result<Duration>
    requires workers { All (IsWorker tree.now) workers.old }
    requires some { 0 < length workers.old }
    ensures workers { All (IsWorker tree.now) workers.new }
    ensures same { length workers.new ≡ length workers.old }
{
    let begun = Instant::now(rt)?;
    let threads = workers.len();
    thread::for_each_mut(
        rt,
        workers,
        threads,
        &|_number, worker| grow(tree, &mut worker.seat, worker.values.as_slice()),
    );
    Ok(begun.elapsed(rt)?)
}

// Makes or finds nodes with these values, in ways of four below the root.
fn grow(tree: &Tree, seat: &mut TreeSeat, values: &[Variant])
    requires seat { IsTreeSeat tree.now seat.old }
    requires short { All (λ v. text_length v < 2 ^ 32) values.now }
    ensures { IsTreeSeat tree.now seat.new }
{
    let mut parent = NodeId(0);
    let mut count = 0u32;
    for value in values {
        let Ok(node) = tree.child(seat, parent, 7, value) else {
            return;
        };
        count = count.wrapping_add(1);
        parent = if count % 4 == 0 { NodeId(0) } else { node };
    }
}
