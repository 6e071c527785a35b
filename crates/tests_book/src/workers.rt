ghost use Rattle.std.specs.Prelude.{◌≡◌, ℕ, ◌+◌, ◌*◌, ◌<◌, ◌≤◌, ◌^◌, None, IsSome, IfOk, All};
ghost use Rattle.std.specs.Prelude.{length};
ghost use Rattle.cal_book.specs.Seats.{IsSeatOf, shape_of, threads_of, view};
ghost use Rattle.cal_book.specs.Views.{first_seat};
ghost use Rattle.tests_book.specs.Workers.{AreWorkers, IsWorker};

use crate::tally::Tally;
use crate::worker::Worker;
use cal_book::{FlushAnswer, FlushCell, FlushSeat};
use cal_value::OutOfMemory;
use std::alloc::Global;
use std::process::Abort;
use std::thread;
use std::thread::Threads;

// Flushes what the worker has left with so many snapshots more, and keeps what comes back.
fn flush(cell: &FlushCell<Tally, u32>, worker: &mut Worker, count: u64)
    requires worker { (number : ℕ) × IsWorker cell.now number worker.old }
    requires shape { shape_of cell.now ≡ 7 }
    requires few { worker.old.given + worker.old.left + count ≤ 2 ^ 20 }
    ensures worker { (number : ℕ) → IsWorker cell.now number worker.old
        → IsWorker cell.now number worker.new }
    ensures total { worker.new.given + worker.new.left
        ≡ worker.old.given + worker.old.left + count }
{
    let count = worker.left + count;
    match cell.flush(&mut worker.seat, Tally::of(count)) {
        FlushAnswer::Merged => {
            worker.given += count;
            worker.left = 0;
        }
        FlushAnswer::Busy { holder: _, part } => {
            worker.left = part.count;
            worker.busy = true;
        }
        FlushAnswer::OutOfMemory { part } => worker.left = part.count,
    }
}

// Ten thousand flushes.
fn flush_often(cell: &FlushCell<Tally, u32>, worker: &mut Worker, count: u64)
    requires worker { (number : ℕ) × IsWorker cell.now number worker.old }
    requires shape { shape_of cell.now ≡ 7 }
    requires none { worker.old.given + worker.old.left ≡ 0 }
    requires few { count ≤ 64 }
    ensures worker { (number : ℕ) → IsWorker cell.now number worker.old
        → IsWorker cell.now number worker.new }
{
    for _time in 0..10_000u64 {
        flush(cell, worker, count);
    }
}

// The thread of number n flushes parts of n + 1 snapshots, on so many threads.
fn flush_all<R: Threads + Sync>(
    rt: &R,
    cell: &FlushCell<Tally, u32>,
    workers: &mut [Worker],
    threads: usize,
)
    requires workers { AreWorkers cell.now workers.old }
    requires shape { shape_of cell.now ≡ 7 }
    requires none { All (λ worker. worker.given + worker.left ≡ 0) workers.old }
    requires few { length workers.old ≤ 64 }
    requires threads { 0 < threads }
    ensures { AreWorkers cell.now workers.new }
{
    thread::for_each_mut(
        rt,
        workers,
        threads,
        &|number, worker| { flush_often(cell, worker, number as u64 + 1) },
    );
}

// A worker with a seat that is split off from the first one.
fn hire_one(cell: &FlushCell<Tally, u32>, first: &mut FlushSeat<Tally, u32>) -> Worker
    requires seat { IsSeatOf cell.now first.old }
    requires first { (view first.old).thread ≡ None }
    requires left { length (view first.old).others < threads_of cell.now }
    ensures seat { IsSeatOf cell.now first.new }
    ensures first { (view first.new).thread ≡ None }
    ensures others { length (view first.new).others ≡ length (view first.old).others + 1 }
    ensures worker { IsWorker cell.now (length (view first.old).others) result }
    ensures none { result.given + result.left ≡ 0 }
{
    Worker {
        seat: cell.split(first),
        given: 0,
        left: 0,
        busy: false,
    }
}

// A worker for each thread.
fn hire(
    alloc: Global,
    cell: &FlushCell<Tally, u32>,
    first: &mut FlushSeat<Tally, u32>,
    count: u32,
) -> Result<Vec<Worker>, OutOfMemory>
    requires seat { IsSeatOf cell.now first.old }
    requires fresh { view first.old ≡ first_seat (shape_of cell.now) }
    requires enough { count ≤ threads_of cell.now }
    ensures seat { IsSeatOf cell.now first.new × ((view first.new).thread ≡ None) }
    ensures others { IfOk result (λ _. length (view first.new).others ≡ count) }
    ensures workers { IfOk result (λ v. (length v.items ≡ count) × AreWorkers cell.now v.items) }
    ensures none { IfOk result (λ v. All (λ worker. worker.given + worker.left ≡ 0) v.items) }
{
    let mut workers = Vec::new(alloc);
    for _number in 0..count {
        workers.push(hire_one(cell, first))?;
    }
    Ok(workers)
}

// What came of all workers: how much they say that they gave, and have left, and whether one of
// them met another one's turn.
#[derive(Clone, Copy, Debug, PartialEq)]
struct Sums {
    given: u64,
    left: u64,
    busy: bool,
}

// Joins the workers, and adds up what they say.
fn dismiss(
    cell: &FlushCell<Tally, u32>,
    first: &mut FlushSeat<Tally, u32>,
    mut workers: Vec<Worker>,
) -> Sums
    requires seat { IsSeatOf cell.now first.old × ((view first.old).thread ≡ None) }
    requires workers { AreWorkers cell.now workers.items }
    requires all { length (view first.old).others ≡ length workers.items }
    ensures seat { IsSeatOf cell.now first.new × ((view first.new).thread ≡ None) }
    ensures all { All IsSome (view first.new).others }
{
    let mut sums = Sums {
        given: 0,
        left: 0,
        busy: false,
    };
    while let Some(worker) = workers.pop() {
        sums.given = sums.given.wrapping_add(worker.given);
        sums.left = sums.left.wrapping_add(worker.left);
        sums.busy |= worker.busy;
        cell.join(first, worker.seat);
    }
    sums
}

// So many workers flush on so many threads: what they say, and what is in the table then.
fn work<R: Threads + Sync>(
    rt: &R,
    alloc: Global,
    count: u32,
    threads: usize,
) -> Result<(Sums, u64), OutOfMemory>
    requires { (count ≤ 64) × (0 < threads) }
{
    let (cell, mut first) = FlushCell::new(alloc, count, &7)?;
    let mut workers = hire(alloc, &cell, &mut first, count)?;
    flush_all(rt, &cell, workers.as_mut_slice(), threads);
    let sums = dismiss(&cell, &mut first, workers);
    let table = cell.close(first);
    Ok((sums, table.count))
}

// In turn each flush is merged, and the table has all.
fn is_all_given(rt: &impl Abort, worked: Result<(Sums, u64), OutOfMemory>, all: u64) {
    let sums = Sums {
        given: all,
        left: 0,
        busy: false,
    };
    assert_eq!(rt; worked, Ok((sums, all)));
}

// At once the table has what was given, and nothing is lost.
fn is_none_lost(rt: &impl Abort, worked: Result<(Sums, u64), OutOfMemory>, all: u64) {
    assert!(rt;
        matches!(worked, Ok((sums, count))
        if sums.given == count && count.wrapping_add(sums.left) == all)
    );
}

#[test]
fn threads_flush_in_turn(rt: HostRuntime) {
    is_all_given(&rt, work(&rt, rt.alloc(), 2, 1), 30_000);
    is_all_given(&rt, work(&rt, rt.alloc(), 8, 1), 360_000);
    is_all_given(&rt, work(&rt, rt.alloc(), 64, 1), 20_800_000);
}

#[test]
fn threads_flush_at_once(rt: HostRuntime) {
    is_none_lost(&rt, work(&rt, rt.alloc(), 2, 2), 30_000);
    is_none_lost(&rt, work(&rt, rt.alloc(), 8, 8), 360_000);
    is_none_lost(&rt, work(&rt, rt.alloc(), 64, 64), 20_800_000);
}

#[test]
fn a_cell_for_no_thread(rt: HostRuntime) {
    is_all_given(&rt, work(&rt, rt.alloc(), 0, 1), 0);
}
