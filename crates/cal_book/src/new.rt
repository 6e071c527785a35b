ghost use Rattle.std.specs.Prelude.{◌≡◌, ◌≤◌, [], ◌∷◌, IfOk};
ghost use Rattle.cal_book.specs.Seats.{IsSeatOf, shape_of, threads_of, view};
ghost use Rattle.cal_book.specs.Views.{first_seat};

use crate::content::no_parts;
use crate::{Content, FlushCell, FlushSeat, Merge};
use atomic_table::Table;
use cal_value::OutOfMemory;
use std::alloc::Global;

// The list of one item.
fn alone<T: Drop>(alloc: Global, item: T) -> Result<Vec<T>, OutOfMemory>
    ensures { IfOk result (λ v. v.items ≡ item ∷ []) }
{
    let mut items = Vec::new(alloc);
    items.push(item)?;
    Ok(items)
}

impl<T: Merge<Q> + Drop, Q> FlushCell<T, Q> {
    /// A cell for so many threads, at most 64, with an empty table of the shape, and its first
    /// seat. It takes memory.
    pub fn new(
        alloc: Global,
        threads: u32,
        shape: &Q,
    ) -> Result<(FlushCell<T, Q>, FlushSeat<T, Q>), OutOfMemory>
        requires { threads ≤ 64 }
        ensures made { IfOk result (λ r. (shape_of r.0 ≡ shape.now) × (threads_of r.0 ≡ threads)) }
        ensures seat { IfOk result (λ r. IsSeatOf r.0 r.1 × (view r.1 ≡ first_seat shape.now)) }
    {
        let table = T::start(alloc, shape)?;
        let numbers = no_parts(alloc)?;
        let slots = alone(alloc, Content { table, numbers })?;
        let Ok((table, seat)) = Table::new(alloc, &[0], slots, shape) else {
            return Err(OutOfMemory);
        };
        Ok((
            FlushCell {
                table,
                threads,
                alloc,
            },
            FlushSeat {
                seat,
                thread: None,
                made: 0,
            },
        ))
    }
}
