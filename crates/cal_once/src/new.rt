ghost use Rattle.std.specs.Prelude.{◌≡◌, IfOk, replicate};
ghost use Rattle.cal_once.specs.Layout.{IsShape};
ghost use Rattle.cal_once.specs.Views.{first_seat};
ghost use Rattle.cal_once.specs.Seats.{IsSeatOf, plan_of, view};
ghost use Rattle.cal_once.specs.Sound.{IsSound};

use crate::{Plan, RowSeat, Rows, Shape};
use atomic_table::Table;
use cal_value::OutOfMemory;
use cal_words::RecSort;
use std::alloc::Global;

fn zeros(alloc: Global, count: usize) -> Result<Vec<u64>, OutOfMemory>
    ensures { IfOk result (λ v. v.items ≡ replicate count 0) }
{
    Ok(vec![in alloc; 0; count]?)
}

/// Drops words, shrunk first: where a big block is freed at once, glibc takes later ones from its
/// heaps, in which each that outgrows its place leaves a hole.
fn give_back(mut words: Vec<u64>) {
    words.truncate(1);
    words.shrink_to_fit();
}

impl<S: RecSort> Rows<S> {
    /// A table of empty slots, for records of this sort, and its first seat.
    pub fn new(alloc: Global, shape: Shape, sort: S) -> Result<(Rows<S>, RowSeat<S>), OutOfMemory>
    where
        S: Drop,
        requires { IsShape shape }
        ensures plan { IfOk result (λ r. plan_of r.0 ≡ record { shape = shape; sort = sort }) }
        ensures seat { IfOk result (λ r. IsSeatOf r.0 r.1 × (view r.1 ≡ first_seat (plan_of r.0))) }
        ensures sound { IfOk result (λ r. IsSound S.RecSort (plan_of r.0) (view r.1)) }
    {
        let count = 1 + shape.slots + shape.arenas * shape.arena;
        let words = zeros(alloc, count as usize)?;
        let plan = Plan { shape, sort };
        let (table, seat) = Table::of_words(alloc, words.as_slice(), &plan)?;
        give_back(words);
        Ok((
            Rows { table, plan },
            RowSeat {
                seat,
                number: 0,
                used: 0,
                made: 1,
            },
        ))
    }
}
