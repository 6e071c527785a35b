ghost use Rattle.std.specs.Prelude.{◌≡◌, ◌+◌, ◌≤◌, [], IfOk, IsSome, if◌then◌else◌};
ghost use Rattle.cal_book.specs.Seats.{IsSeatOf, shape_of, view};
ghost use Rattle.tests_book.specs.Gifts.{Gave};

use crate::tally::Tally;
use cal_book::{FlushAnswer, FlushCell, FlushSeat};
use cal_value::OutOfMemory;
use std::alloc::Global;
use std::process::Abort;
use std::thread::{Threads, join};

// Flushes a count once, and says whether it was merged.
fn give(
    cell: &FlushCell<Tally, u32>,
    mut seat: FlushSeat<Tally, u32>,
    count: u64,
) -> (FlushSeat<Tally, u32>, bool)
    requires seat { IsSeatOf cell.now seat }
    requires split_off { IsSome (view seat).thread }
    requires shape { shape_of cell.now ≡ 7 }
    requires fresh { (view seat).account.given ≡ [] }
    requires few { count ≤ 1000 }
    ensures seat { IsSeatOf cell.now result.0 }
    ensures gave { Gave (view seat) (view result.0) count result.1 }
{
    let merged = matches!(cell.flush(&mut seat, Tally::of(count)), FlushAnswer::Merged);
    (seat, merged)
}

// Two threads flush a count each. What the cell holds at the end is what they gave: a caller can
// show that from the contracts alone.
fn by_two<R: Threads + Sync>(
    rt: &R,
    alloc: Global,
    a: u64,
    b: u64,
) -> Result<(u64, bool, bool), OutOfMemory>
    requires few { (a ≤ 1000) × (b ≤ 1000) }
    ensures { IfOk result (λ r. r.0 ≡ (if r.1 then a else 0) + (if r.2 then b else 0)) }
{
    let (cell, mut first) = FlushCell::new(alloc, 2, &7)?;
    let one = cell.split(&mut first);
    let two = cell.split(&mut first);
    let ((one, x), (two, y)) = join(
        rt,
        || -> (FlushSeat<Tally, u32>, bool)
            requires { IsSeatOf cell one × IsSome (view one).thread × (shape_of cell ≡ 7)
                × ((view one).account.given ≡ []) × (a ≤ 1000) }
            ensures { IsSeatOf cell result.0 × Gave (view one) (view result.0) a result.1 }
        { give(&cell, one, a) },
        || -> (FlushSeat<Tally, u32>, bool)
            requires { IsSeatOf cell two × IsSome (view two).thread × (shape_of cell ≡ 7)
                × ((view two).account.given ≡ []) × (b ≤ 1000) }
            ensures { IsSeatOf cell result.0 × Gave (view two) (view result.0) b result.1 }
        { give(&cell, two, b) },
    );
    cell.join(&mut first, one);
    cell.join(&mut first, two);
    let table = cell.close(first);
    Ok((table.count, x, y))
}

// Two threads flush once each, and at least one of them is merged.
fn is_merged(rt: &impl Abort, flushed: Result<(u64, bool, bool), OutOfMemory>) {
    let one = Ok((3, true, false));
    let other = Ok((4, false, true));
    let both = Ok((7, true, true));
    assert!(rt; flushed == one || flushed == other || flushed == both);
}

#[test]
fn two_threads_flush_once_each(rt: HostRuntime) {
    for _time in 0..200 {
        is_merged(&rt, by_two(&rt, rt.alloc(), 3, 4));
    }
}
