ghost use Rattle.std.specs.Prelude.{◌≡◌, [], IsSome};
ghost use Rattle.cal_book.specs.Seats.{IsSeatOf, shape_of, view};

use crate::tally::Tally;
use cal_book::{FlushAnswer, FlushCell, FlushSeat};
use cal_value::OutOfMemory;
use std::alloc::Global;

// Flushes a part that refuses, and then one that doesn't. Whether the first came back, and the turn
// was free again.
fn is_refused(cell: &FlushCell<Tally, u32>, seat: &mut FlushSeat<Tally, u32>) -> bool
    requires seat { IsSeatOf cell.now seat.old }
    requires split_off { IsSome (view seat.old).thread }
    requires shape { shape_of cell.now ≡ 7 }
    requires fresh { (view seat.old).account.given ≡ [] }
    ensures seat { IsSeatOf cell.now seat.new }
    ensures thread { (view seat.new).thread ≡ (view seat.old).thread }
{
    let part = Tally {
        shape: 7,
        count: 5,
        refuses: true,
    };
    let FlushAnswer::OutOfMemory { part } = cell.flush(seat, part) else {
        return false;
    };
    part.count == 5 && matches!(cell.flush(seat, Tally::of(6)), FlushAnswer::Merged)
}

// What is in the table after that.
fn after_a_refusal(alloc: Global) -> Result<(bool, u64), OutOfMemory> {
    let (cell, mut first) = FlushCell::new(alloc, 1, &7)?;
    let mut seat = cell.split(&mut first);
    let refused = is_refused(&cell, &mut seat);
    cell.join(&mut first, seat);
    let table = cell.close(first);
    Ok((refused, table.count))
}

#[test]
fn a_refused_part_comes_back_and_the_turn_is_free(rt: HostRuntime) {
    assert_eq!(rt; after_a_refusal(rt.alloc()), Ok((true, 6)));
}
