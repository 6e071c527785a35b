//! A part of a book.
ghost use Rattle.std.specs.Prelude.{◌≡◌, ◌++◌, ◌∷◌, [], OnOk};
ghost use Rattle.cal_events.specs.Worlds.{given_by};

use crate::rows::push_copies;
use cal_value::{OutOfMemory, Rec, Seq};
use std::alloc::Global;
use std::marker::Model;

/// Snapshots that a thread gave to a book.
#[derive(Drop)]
pub(crate) struct Part {
    pub(crate) thread: u32,
    pub(crate) snapshots: Seq<Rec>,
}

impl Model for Part {
    ghost use Rattle.cal_events.specs.Worlds.{Part as parts};

    ghost Value = { parts };

    ghost view = { λ s. record { thread = s.thread; snapshots = s.snapshots } };
}

/// Adds what a book has of a thread, in the order in which it was given. An `Err` may leave some.
pub(crate) fn push_given(
    alloc: Global,
    thread: usize,
    book: &[Part],
    taken: &mut Seq<Rec>,
) -> Result<(), OutOfMemory>
    ensures { OnOk result (taken.new ≡ taken.old ++ given_by thread book.now) }
{
    for part in book {
        push_part(alloc, thread, part, taken)?;
    }
    Ok(())
}

/// Adds the snapshots of a part, if it is of a thread.
fn push_part(
    alloc: Global,
    thread: usize,
    part: &Part,
    taken: &mut Seq<Rec>,
) -> Result<(), OutOfMemory>
    ensures { OnOk result (taken.new ≡ taken.old ++ given_by thread (part.now ∷ [])) }
{
    if part.thread as usize == thread {
        push_copies(alloc, part.snapshots.as_slice(), taken)
    } else {
        Ok(())
    }
}
