//! Inserts into write-once rows, by one seat and by two side by side.
ghost use Rattle.std.specs.Prelude.{◌≡◌, ◌+◌, ◌^◌, ◌<◌, ◌≤◌, All, length};
ghost use Rattle.cal_once.specs.Seats.{IsSeatOf, plan_of, view};
ghost use Rattle.cal_once.specs.Views.{first_seat};

use anyhow::Result;
use cal_once::{RowSeat, Rows, Shape};
use cal_value::Variant;
use cal_words::{NodeId, NodeRec, NodeSort, know_node};
use std::rt::Clock;
use std::thread;
use std::thread::Threads;
use std::time::{Duration, Instant};

/// How many records are put in all, and how many slots there are.
const RECORDS: u32 = 1_000_000;

const SLOTS: u64 = 1 << 21;

/// Times a million inserts by one seat, as many searches for known records, and half a million
/// inserts each by two seats side by side.
pub fn measure<R: Clock + Print + AllocGlobal + Threads + Sync>(rt: &R) -> Result<()> {
    alone(rt)?;
    side_by_side(rt)
}

// Puts the children of the root with these attributes.
fn fill(rows: &Rows<NodeSort>, seat: &mut RowSeat<NodeSort>, from: u32, count: u32)
    requires seat { IsSeatOf rows.now seat.old }
    requires few { from + count < 2 ^ 32 }
    ensures { IsSeatOf rows.now seat.new }
{
    let value = Variant::Bool(true);
    for attr in from..from + count {
        let rec = NodeRec {
            parent: NodeId(0),
            depth: 1,
            attr,
            value: &value,
        };
        know_node(&rec);
        let _ = rows.put(seat, &rec, 0);
    }
}

fn alone(rt: &(impl Clock + Print + AllocGlobal)) -> Result<()> {
    let shape = Shape {
        slots: SLOTS,
        homes: SLOTS,
        arena: 5_000_000,
        arenas: 1,
    };
    let (rows, mut seat) = Rows::new(rt.alloc(), shape, NodeSort)?;
    let timed = time_one(rt, &rows, &mut seat);
    drop(seat);
    drop(rows);
    timed
}

// The records are new in the first round, and known in the second.
fn time_one(
    rt: &(impl Clock + Print),
    rows: &Rows<NodeSort>,
    seat: &mut RowSeat<NodeSort>,
) -> Result<()>
    requires { IsSeatOf rows.now seat.old }
{
    let new = time_fill(rt, rows, seat)?;
    let known = time_fill(rt, rows, seat)?;
    println!(rt;
        "one seat: {} ms for new records, {} ms for known ones, {} filled",
        new.as_millis(),
        known.as_millis(),
        rows.filled(seat)
    )?;
    Ok(())
}

fn time_fill(
    rt: &impl Clock,
    rows: &Rows<NodeSort>,
    seat: &mut RowSeat<NodeSort>,
) -> Result<Duration>
    requires { IsSeatOf rows.now seat.old }
    ensures { IsSeatOf rows.now seat.new }
{
    let begun = Instant::now(rt)?;
    fill(rows, seat, 0, RECORDS);
    Ok(begun.elapsed(rt)?)
}

#[derive(Drop)]
struct Worker {
    seat: RowSeat<NodeSort>,
}

fn side_by_side<R: Clock + Print + AllocGlobal + Threads + Sync>(rt: &R) -> Result<()> {
    let shape = Shape {
        slots: SLOTS,
        homes: SLOTS,
        arena: 2_500_000,
        arenas: 3,
    };
    let (rows, mut first) = Rows::new(rt.alloc(), shape, NodeSort)?;
    let one = rows.split(&mut first);
    let two = rows.split(&mut first);
    let mut workers = [Worker { seat: one }, Worker { seat: two }];
    let timed = time_two(rt, &rows, &mut first, &mut workers);
    drop(workers);
    drop(first);
    drop(rows);
    timed
}

fn time_two<R: Clock + Print + Threads + Sync>(
    rt: &R,
    rows: &Rows<NodeSort>,
    first: &mut RowSeat<NodeSort>,
    workers: &mut [Worker],
) -> Result<()>
    requires first { IsSeatOf rows.now first.old }
    requires seats { All (λ w. IsSeatOf rows.now w.seat) workers.old }
    requires two { length workers.old ≡ 2 }
{
    let begun = Instant::now(rt)?;
    fill_all(rt, rows, workers);
    let new = begun.elapsed(rt)?;
    println!(rt;
        "two seats: {} ms for new records, {} known",
        new.as_millis(),
        rows.filled(first)
    )?;
    Ok(())
}

fn fill_all<R: Threads + Sync>(rt: &R, rows: &Rows<NodeSort>, workers: &mut [Worker])
    requires seats { All (λ w. IsSeatOf rows.now w.seat) workers.old }
    requires two { length workers.old ≡ 2 }
{
    thread::for_each_mut(
        rt,
        workers,
        2,
        &|number, worker| fill(
            rows,
            &mut worker.seat,
            RECORDS / 2 * number as u32,
            RECORDS / 2,
        ),
    );
}
