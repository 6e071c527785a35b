ghost use Rattle.std.specs.Prelude.{◌≡◌, ◌+◌, ◌^◌, ◌<◌, ◌≤◌, All, IfOk, length, vec_len};
ghost use Rattle.cal_once.specs.Layout.{IsShape};
ghost use Rattle.cal_once.specs.Seats.{IsSeatOf, plan_of, view};
ghost use Rattle.cal_once.specs.Views.{first_seat};

use crate::held::{all_hold, is_true};
use cal_once::{Put, RowSeat, Rows, Shape, known_for_good, one_place_each};
use cal_value::{OutOfMemory, Variant};
use cal_words::{NodeId, NodeRec, NodeSort, know_node};
use std::alloc::Global;
use std::thread;
use std::thread::Threads;

// Puts the child of the root with this attribute, which takes five words.
fn put_child(rows: &Rows<NodeSort>, seat: &mut RowSeat<NodeSort>, attr: u32) -> Put
    requires seat { IsSeatOf rows.now seat.old }
    ensures seat { IsSeatOf rows.now seat.new }
{
    let rec = NodeRec {
        parent: NodeId(0),
        depth: 1,
        attr,
        value: &Variant::Bool(true),
    };
    know_node(&rec);
    rows.put(seat, &rec, 0)
}

fn new_at(place: u64) -> Put {
    Put::Placed { place, fresh: true }
}

fn found_at(place: u64) -> Put {
    Put::Placed {
        place,
        fresh: false,
    }
}

// The first child of the root that isn't answered so, put in order.
fn wrong_put(
    rows: &Rows<NodeSort>,
    seat: &mut RowSeat<NodeSort>,
    wanted: &[(u32, Put)],
) -> Option<usize>
    requires { IsSeatOf rows.now seat.old }
{
    for row in 0..wanted.len() {
        if put_child(rows, seat, wanted[row].0) != wanted[row].1 {
            return Some(row);
        }
    }
    None
}

// The first wrong row of a table of this shape: an attribute, and the answer to its child.
fn wrong_row(
    alloc: Global,
    shape: Shape,
    wanted: &[(u32, Put)],
) -> Result<Option<usize>, OutOfMemory>
    requires { IsShape shape }
{
    let (rows, mut seat) = Rows::new(alloc, shape, NodeSort)?;
    let wrong = wrong_put(&rows, &mut seat, wanted);
    drop(seat);
    drop(rows);
    Ok(wrong)
}

// A new record has this place, if there are so many slots.
fn new_within(place: u64, slots: u64) -> Put {
    if place < slots {
        return new_at(place);
    }
    Put::RowsFull
}

fn wrong_of_slots(alloc: Global, slots: u64) -> Result<Option<usize>, OutOfMemory>
    requires { (1 ≤ slots) × (slots ≤ 9) }
{
    let shape = Shape {
        slots,
        homes: 1,
        arena: 64,
        arenas: 1,
    };
    let wanted = [
        (0, new_at(0)),
        (1, new_within(1, slots)),
        (2, new_within(2, slots)),
        (3, new_within(3, slots)),
        (4, new_within(4, slots)),
        (5, new_within(5, slots)),
        (6, new_within(6, slots)),
        (7, new_within(7, slots)),
        (0, found_at(0)),
    ];
    wrong_row(alloc, shape, &wanted)
}

#[test]
fn each_record_has_one_place(rt: HostRuntime) {
    for slots in 1..9 {
        assert_eq!(rt;
            wrong_of_slots(rt.alloc(), slots),
            Ok(None),
            "of {slots} slots"
        );
    }
}

// With four homes, attributes 3 and 7 begin at slot 0, and 0, 1 and 2 at the slots behind it.
#[test]
fn a_record_is_placed_from_its_home(rt: HostRuntime) {
    let four = Shape {
        slots: 4,
        homes: 4,
        arena: 64,
        arenas: 1,
    };
    let wanted = [
        (3, new_at(0)),
        (0, new_at(1)),
        (1, new_at(2)),
        (2, new_at(3)),
        (7, Put::RowsFull),
        (3, found_at(0)),
    ];
    all_hold(&rt, wrong_row(rt.alloc(), four, &wanted));
}

#[test]
fn a_full_arena_is_told(rt: HostRuntime) {
    let short = Shape {
        slots: 9,
        homes: 1,
        arena: 5,
        arenas: 1,
    };
    let wanted = [(0, new_at(0)), (1, Put::ArenaFull { used: 5, need: 5 })];
    all_hold(&rt, wrong_row(rt.alloc(), short, &wanted));
}

#[derive(Drop)]
struct Worker {
    seat: RowSeat<NodeSort>,
    places: Vec<u64>,
}

// Puts the records from `from` on, and remembers their places.
fn put_many(rows: &Rows<NodeSort>, worker: &mut Worker, from: u32, count: u32)
    requires seat { IsSeatOf rows.now worker.old.seat }
    requires few { from + count < 2 ^ 32 }
    ensures seat { IsSeatOf rows.now worker.new.seat }
{
    for attr in from..from + count {
        if let Put::Placed { place, .. } = put_child(rows, &mut worker.seat, attr) {
            let _ = worker.places.push(place);
        }
    }
}

// The workers put `shared` records, the same for all, and each `own` ones of its own.
fn put_all<R: Threads + Sync>(
    rt: &R,
    rows: &Rows<NodeSort>,
    workers: &mut [Worker],
    shared: u32,
    own: u32,
)
    requires seats { All (λ w. IsSeatOf rows.now w.seat) workers.old }
    requires few { (shared ≤ 1000) × (own ≤ 1000)
        × (0 < length workers.old) × (length workers.old ≤ 8) }
    ensures { All (λ w. IsSeatOf rows.now w.seat) workers.new }
{
    let threads = workers.len();
    thread::for_each_mut(
        rt,
        workers,
        threads,
        &|number, worker| {
            put_many(rows, worker, 0, shared);
            put_many(rows, worker, 1000 * (number as u32 + 1), own);
        },
    );
}

// Workers with seats that are split off from the first one.
fn hire(
    alloc: Global,
    rows: &Rows<NodeSort>,
    first: &mut RowSeat<NodeSort>,
    count: usize,
) -> Result<Vec<Worker>, OutOfMemory>
    requires seat { IsSeatOf rows.now first.old }
    requires fresh { view first.old ≡ first_seat (plan_of rows.now) }
    requires enough { count < (plan_of rows.now).shape.arenas }
    ensures seat { IsSeatOf rows.now first.new × ((view first.new).number ≡ 0) }
    ensures workers { IfOk result (λ v. (vec_len v ≡ count)
        × All (λ w. IsSeatOf rows.now w.seat) v.items) }
{
    let mut workers = Vec::new(alloc);
    for _number in 0..count {
        let seat = rows.split(first);
        workers.push(Worker {
            seat,
            places: Vec::with_capacity(alloc, 2000)?,
        })?;
    }
    Ok(workers)
}

// Joins the workers.
fn dismiss(rows: &Rows<NodeSort>, first: &mut RowSeat<NodeSort>, mut workers: Vec<Worker>)
    requires seat { IsSeatOf rows.now first.old × ((view first.old).number ≡ 0) }
    requires workers { All (λ w. IsSeatOf rows.now w.seat) workers.items }
    ensures seat { IsSeatOf rows.now first.new }
{
    while let Some(worker) = workers.pop() {
        let Worker { seat, places } = worker;
        drop(places);
        rows.join(first, seat);
    }
    workers.destroy_empty();
}

// Whether the first places of all workers agree.
fn all_agree(workers: &[Worker], count: usize) -> bool {
    let Some(first) = workers.first() else {
        return true;
    };
    for worker in workers {
        if !agrees(first.places.as_slice(), worker.places.as_slice(), count) {
            return false;
        }
    }
    true
}

fn agrees(places: &[u64], others: &[u64], count: usize) -> bool {
    for at in 0..count {
        let (Some(place), Some(other)) = (places.get(at), others.get(at)) else {
            return false;
        };
        if *place != *other {
            return false;
        }
    }
    true
}

// Whether so many workers agree on the places of the records that they share.
fn work<R: Threads + Sync>(
    rt: &R,
    alloc: Global,
    rows: &Rows<NodeSort>,
    first: &mut RowSeat<NodeSort>,
    count: usize,
    shared: u32,
    own: u32,
) -> Result<bool, OutOfMemory>
    requires seat { IsSeatOf rows.now first.old }
    requires fresh { view first.old ≡ first_seat (plan_of rows.now) }
    requires enough { count < (plan_of rows.now).shape.arenas }
    requires few { (shared ≤ 1000) × (own ≤ 1000) × (0 < count) × (count ≤ 8) }
    ensures { IsSeatOf rows.now first.new }
{
    let mut workers = hire(alloc, rows, first, count)?;
    put_all(rt, rows, workers.as_mut_slice(), shared, own);
    let agree = all_agree(workers.as_slice(), shared as usize);
    dismiss(rows, first, workers);
    Ok(agree)
}

// How many slots so many workers fill, if they agree.
fn filled_by<R: Threads + Sync>(
    rt: &R,
    alloc: Global,
    count: usize,
    shared: u32,
    own: u32,
) -> Result<Option<u64>, OutOfMemory>
    requires few { (shared ≤ 1000) × (own ≤ 1000) × (0 < count) × (count ≤ 8) }
{
    let shape = Shape {
        slots: 5000,
        homes: 5000,
        arena: 5000,
        arenas: 9,
    };
    let (rows, mut first) = Rows::new(alloc, shape, NodeSort)?;
    let agree = work(rt, alloc, &rows, &mut first, count, shared, own);
    let filled = rows.filled(&mut first);
    drop(first);
    drop(rows);
    Ok(agree?.then_some(filled))
}

#[test]
fn side_by_side_each_record_has_one_place(rt: HostRuntime) {
    let two = filled_by(&rt, rt.alloc(), 2, 100, 0);
    assert!(rt; two == Ok(Some(100)));
    let eight = filled_by(&rt, rt.alloc(), 8, 500, 500);
    assert!(rt; eight == Ok(Some(4500)));
}

// A place is known from its look on, and then its record is read.
fn is_read(rows: &Rows<NodeSort>, seat: &mut RowSeat<NodeSort>) -> bool
    requires seat { IsSeatOf rows.now seat.old }
    requires slots { (plan_of rows.now).shape.slots ≡ 2 }
{
    if rows.look(seat, 0) {
        return false;
    }
    let _ = put_child(rows, seat, 7);
    if rows.look(seat, 1) || !rows.look(seat, 0) {
        return false;
    }
    let size = rows.size(seat, 0);
    size == 5 && rows.word(seat, 0, 2) == 7
}

fn is_read_where_known(alloc: Global) -> Result<bool, OutOfMemory> {
    let shape = Shape {
        slots: 2,
        homes: 1,
        arena: 5,
        arenas: 1,
    };
    let (rows, mut seat) = Rows::new(alloc, shape, NodeSort)?;
    let read = is_read(&rows, &mut seat);
    drop(seat);
    drop(rows);
    Ok(read)
}

#[test]
fn a_known_place_is_read(rt: HostRuntime) {
    is_true(&rt, is_read_where_known(rt.alloc()));
    known_for_good::<NodeSort>();
    one_place_each::<NodeSort>();
}
