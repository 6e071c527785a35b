//! The running threads of a run.
ghost use Rattle.std.specs.Prelude.{◌≡◌, ◌+◌, ◌<◌, ℕ, [], All, IfOk, OnOk, length};
ghost use Rattle.cal_book.specs.Seats.{threads_of};
ghost use Rattle.cal_replay.specs.Flushing.{BookOf};
ghost use Rattle.cal_replay.specs.Workers.{script_of};
ghost use Rattle.cal_start.specs.FirstSeats.{AreFirstSeats, AreNewSeats, HaveHired};
ghost use Rattle.cal_start.specs.Hired.{AreHired, IsHiredFor};
ghost use Rattle.cal_start.specs.Runs.{IsRun};

use crate::{FirstSeats, Run};
use cal_keeping::{BookHand, Channels, Runner};
use cal_replay::Worker;
use cal_run::Prober;
use cal_script::{LineNote, Script};
use cal_table::{Book, BookSeat};
use cal_thread::Thread;
use cal_value::{OutOfMemory, Seq};
use std::alloc::Global;

impl<'a> Run<'a> {
    /// A running thread for each thread of the script, in the order of their numbers, with seats of
    /// its own; none is started. It is called once, behind `new`. It takes memory for a copy of
    /// each shape for each thread, and for a note of each line. Behind an `Err`, which is want of
    /// memory, `first` may have split some seats off, and nobody is hired from it again.
    pub fn hire<'r, P: Prober>(
        &'r self,
        alloc: Global,
        probes: &'r P,
        first: &mut FirstSeats,
    ) -> Result<Vec<Runner<'r, P, BookHand<'r>>>, OutOfMemory>
        requires run { IsRun self.now }
        requires first { HaveHired self.now first.old 0 }
        ensures hired { IfOk result (λ runners. AreHired self.now runners.items) }
        ensures first { OnOk result
            (HaveHired self.now first.new (length (script_of self.now.shared).threads)) }
    {
        let threads = self.shared.common.script.threads.len() as u32;
        let mut runners = Vec::with_capacity(alloc, threads as usize)?;
        for number in 0..threads {
            let runner = self.hire_one(alloc, number, probes, first)?;
            runners.push(runner)?;
        }
        Ok(runners)
    }

    /// The running thread of a number. Those before it are hired.
    fn hire_one<'r, P: Prober>(
        &'r self,
        alloc: Global,
        number: u32,
        probes: &'r P,
        first: &mut FirstSeats,
    ) -> Result<Runner<'r, P, BookHand<'r>>, OutOfMemory>
        requires run { IsRun self.now }
        requires thread { number < length (script_of self.now.shared).threads }
        requires first { HaveHired self.now first.old number }
        ensures hired { IfOk result (IsHiredFor self.now number) }
        ensures first { OnOk result (HaveHired self.now first.new (number + 1)) }
    {
        let notes = room_for_notes(alloc, self.shared.common.script, number)?;
        let books = self.books.as_slice();
        let seats = split_seats(alloc, number, books, first.books.as_mut_slice())?;
        let timed = self.shared.timers.some;
        let common = &self.shared.common;
        let tree = &mut first.tree;
        let log = &mut first.log;
        let thread = Thread::hire(alloc, common, number, timed, tree, log);
        let worker = Worker::new(thread, notes);
        let channels = Channels::new(
            alloc,
            self.shared.common.script,
            number,
            &self.numbers,
            self.shapes.as_slice(),
            probes,
            BookHand { books, seats },
        )?;
        Ok(Runner { worker, channels })
    }
}

/// Room for a note of each line of a thread, and no note.
fn room_for_notes(alloc: Global, script: &Script, thread: u32) -> Result<Seq<LineNote>, OutOfMemory>
    requires { thread < length script.now.threads }
    ensures { IfOk result (λ notes. notes ≡ []) }
{
    let lines = &script.threads.as_slice()[thread as usize];
    Ok(Seq::from_vec(Vec::with_capacity(alloc, lines.len())?))
}

/// The seats of the thread of a number at books, for whose earlier threads theirs were split off.
fn split_seats(
    alloc: Global,
    _number: u32,
    books: &[Book],
    first: &mut [BookSeat],
) -> Result<Vec<BookSeat>, OutOfMemory>
    requires room { All (λ (book : BookOf). _number < threads_of book) books.now }
    requires first { AreFirstSeats _number books.now first.old }
    ensures new { IfOk result (λ seats. AreNewSeats _number books.now seats.items) }
    ensures first { OnOk result (AreFirstSeats (_number + 1) books.now first.new) }
{
    let mut seats = Vec::with_capacity(alloc, books.len())?;
    for place in 0..books.len() {
        seats.push(books[place].split(&mut first[place]))?;
    }
    Ok(seats)
}
