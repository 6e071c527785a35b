ghost use Rattle.std.specs.Prelude.{◌≡◌, ◌+◌, ◌<◌, ◌≤◌, ◌^◌};
ghost use Rattle.std.specs.Prelude.{length, replicate, slice_index_or, slice_set};
ghost use Rattle.std.specs.Prelude.{OnOk, IfOk, IfErr};
ghost use Rattle.cal_book.specs.Contents.{MayTakeIn, TakesIn, more_numbers, no_numbers};

use crate::Merge;
use cal_value::{OutOfMemory, Seq};
use std::alloc::Global;

/// How many parts a thread has given, modulo 2^64, and how many snapshots they stand for.
#[derive(Clone, Copy, Debug)]
pub struct Numbers {
    pub parts: u64,
    pub snapshots: u64,
}

/// What lies in the slot: a table, and the numbers of each of 64 threads.
#[derive(Drop)]
pub struct Content<T> {
    pub table: T,
    pub numbers: Seq<Numbers>,
}

/// Merges a part of a thread into a content, and counts it.
pub(crate) fn take_in<T: Merge<Q> + Drop, Q>(
    content: &mut Content<T>,
    thread: u32,
    part: T,
) -> Result<(), T>
    requires may { (q : Q) × MayTakeIn T.Merging q thread part content.old }
    ensures taken { OnOk result (TakesIn T.Merging thread part content.old content.new) }
    ensures refused { IfErr result (λ back. (back ≡ part) × (content.new ≡ content.old)) }
{
    let size = part.snapshots();
    match content.table.merge(part) {
        Ok(()) => {
            count(&mut content.numbers, thread as usize, size);
            Ok(())
        }
        Err(part) => Err(part),
    }
}

/// Counts a part of so many snapshots.
fn count(numbers: &mut Seq<Numbers>, thread: usize, size: u64)
    requires thread { thread < length numbers.old }
    requires few { (slice_index_or numbers.old thread no_numbers).snapshots + size ≤ 2 ^ 20 }
    ensures { numbers.new ≡ slice_set numbers.old thread
        (more_numbers (slice_index_or numbers.old thread no_numbers) size) }
{
    let numbers = numbers.get_mut(thread).unwrap();
    numbers.parts = numbers.parts.wrapping_add(1);
    numbers.snapshots += size;
}

/// The numbers of threads that have given nothing.
pub(crate) fn no_parts(alloc: Global) -> Result<Seq<Numbers>, OutOfMemory>
    ensures { IfOk result (λ numbers. numbers ≡ replicate 64 no_numbers) }
{
    let none = Numbers {
        parts: 0,
        snapshots: 0,
    };
    Ok(Seq::from_vec(vec![in alloc; none; 64]?))
}
