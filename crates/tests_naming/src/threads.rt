//! Threads that declare the same names with different contents.
ghost use Rattle.std.specs.Prelude.{◌≡◌, ◌+◌, ◌<◌, ◌≤◌, All, IfOk, length, vec_len};
ghost use Rattle.cal_names.specs.Kept.{IsNameSeat, plan_of};
ghost use Rattle.cal_once.specs.Seats.{view};
ghost use Rattle.cal_once.specs.Views.{first_seat};

use cal_names::{Declared, NameSeat, Names};
use cal_once::Shape;
use cal_value::{Kind, OutOfMemory};
use std::alloc::Global;
use std::thread;
use std::thread::Threads;

#[derive(Drop)]
struct Worker {
    seat: NameSeat,
    // The properties that are kept of each name.
    kept: [u32; 4],
}

// The properties of a name that are kept behind its declaration; 0 where it is refused.
fn kept(names: &Names, seat: &mut NameSeat, at: usize, props: u32) -> u32
    requires { IsNameSeat names.now seat.old }
    ensures { IsNameSeat names.now seat.new }
{
    let name = match at {
        0 => "north",
        1 => "east",
        2 => "south",
        _ => "west",
    };
    match names.declare(seat, name, Kind::Int, props) {
        Ok(Declared::Same { .. }) => props,
        Ok(Declared::Different { props, .. }) => props,
        Err(_) => 0,
    }
}

// Declares the names, beginning at another one in each thread, with properties of its own.
fn declare_all(names: &Names, worker: &mut Worker, number: usize)
    requires seat { IsNameSeat names.now worker.old.seat }
    requires few { number < 8 }
    ensures { IsNameSeat names.now worker.new.seat }
{
    for at in number..number + 4 {
        worker.kept[at % 4] = kept(names, &mut worker.seat, at % 4, number as u32 + 1);
    }
}

fn work_all<R: Threads + Sync>(rt: &R, names: &Names, workers: &mut [Worker])
    requires seats { All (λ w. IsNameSeat names.now w.seat) workers.old }
    requires few { (0 < length workers.old) × (length workers.old ≤ 8) }
    ensures { All (λ w. IsNameSeat names.now w.seat) workers.new }
{
    let threads = workers.len();
    thread::for_each_mut(
        rt,
        workers,
        threads,
        &|number, worker| { declare_all(names, worker, number) },
    );
}

// A worker with a seat that is split off from the first one.
fn hire_one(names: &Names, first: &mut NameSeat) -> Worker
    requires seat { IsNameSeat names.now first.old }
    requires first { (view first.old).number ≡ 0 }
    requires left { length (view first.old).others + 1 < (plan_of names.now).shape.arenas }
    ensures seat { IsNameSeat names.now first.new }
    ensures first { (view first.new).number ≡ 0 }
    ensures others { length (view first.new).others ≡ length (view first.old).others + 1 }
    ensures worker { IsNameSeat names.now result.seat }
{
    let seat = names.split(first);
    Worker { seat, kept: [0; 4] }
}

// Workers with seats that are split off from the first one.
fn hire(
    alloc: Global,
    names: &Names,
    first: &mut NameSeat,
    count: usize,
) -> Result<Vec<Worker>, OutOfMemory>
    requires seat { IsNameSeat names.now first.old }
    requires fresh { view first.old ≡ first_seat (plan_of names.now) }
    requires enough { count < (plan_of names.now).shape.arenas }
    ensures seat { IsNameSeat names.now first.new × ((view first.new).number ≡ 0) }
    ensures workers { IfOk result (λ v. (vec_len v ≡ count)
        × All (λ w. IsNameSeat names.now w.seat) v.items) }
{
    let mut workers = Vec::new(alloc);
    for _number in 0..count {
        let worker = hire_one(names, first);
        workers.push(worker)?;
    }
    Ok(workers)
}

// Joins the workers.
fn dismiss(names: &Names, first: &mut NameSeat, mut workers: Vec<Worker>)
    requires seat { IsNameSeat names.now first.old × ((view first.old).number ≡ 0) }
    requires workers { All (λ w. IsNameSeat names.now w.seat) workers.items }
    ensures seat { IsNameSeat names.now first.new }
{
    while let Some(worker) = workers.pop() {
        let Worker { seat, kept: _ } = worker;
        names.join(first, seat);
    }
    workers.destroy_empty();
}

// What all workers found kept of each name, if they agree.
fn agreed(workers: &[Worker]) -> Option<[u32; 4]> {
    let first = workers.first()?;
    for worker in workers {
        if worker.kept != first.kept {
            return None;
        }
    }
    Some(first.kept)
}

// Whether the threads agree, and with what the first seat finds behind the join.
fn work<R: Threads + Sync>(
    rt: &R,
    alloc: Global,
    names: &Names,
    first: &mut NameSeat,
    count: usize,
) -> Result<bool, OutOfMemory>
    requires seat { IsNameSeat names.now first.old }
    requires fresh { view first.old ≡ first_seat (plan_of names.now) }
    requires enough { count < (plan_of names.now).shape.arenas }
    requires few { (0 < count) × (count ≤ 8) }
{
    let mut workers = hire(alloc, names, first, count)?;
    work_all(rt, names, workers.as_mut_slice());
    let found = agreed(workers.as_slice());
    dismiss(names, first, workers);
    let Some(props) = found else {
        return Ok(false);
    };
    let mut same = true;
    for at in 0..4 {
        same = same && props[at] != 0 && kept(names, first, at, 9) == props[at];
    }
    Ok(same)
}

fn agree<R: Threads + Sync>(rt: &R, alloc: Global, count: usize) -> Result<bool, OutOfMemory>
    requires { (0 < count) × (count ≤ 8) }
{
    let shape = Shape {
        slots: 64,
        homes: 7,
        arena: 20,
        arenas: 9,
    };
    let (names, mut first) = Names::new(alloc, shape)?;
    let same = work(rt, alloc, &names, &mut first, count);
    drop(first);
    drop(names);
    same
}

#[test]
fn threads_agree_on_what_is_kept(rt: HostRuntime) {
    assert_eq!(rt; agree(&rt, rt.alloc(), 2), Ok(true));
    assert_eq!(rt; agree(&rt, rt.alloc(), 8), Ok(true));
}
