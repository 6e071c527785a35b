//! What runners hand over when they are taken apart.
ghost use Rattle.std.specs.Prelude.{◌≡◌, ◌++◌, [], ◌∷◌, IfOk, OnOk};
ghost use Rattle.cal_handover.specs.Handing.{IsHandedOver};

use cal_channel::ThreadChannel;
use cal_keeping::{BookHand, Channels, Runner};
use cal_replay::Worker;
use cal_run::Prober;
use cal_script::ThreadNote;
use cal_table::BookSeat;
use cal_thread::Thread;
use cal_value::{OutOfMemory, Seq};
use std::alloc::Global;

/// What the threads of a run hand over, each list by threads in their order: the threads, what was
/// noted of them, and of each thread its channels and its seats at their books.
#[derive(Drop)]
pub struct Handed {
    pub threads: Vec<Thread>,
    pub notes: Seq<ThreadNote>,
    pub channels: Vec<Vec<ThreadChannel>>,
    pub seats: Vec<Vec<BookSeat>>,
}

/// Takes runners apart, after which nobody borrows the books through them. It takes the memory of
/// the lists alone. An `Err` is want of it, and drops the runners.
pub fn hand_over<P: Prober>(
    alloc: Global,
    runners: Vec<Runner<'_, P, BookHand<'_>>>,
) -> Result<Handed, OutOfMemory>
    ensures { IfOk result (IsHandedOver runners.entry.items) }
{
    let mut handed = Handed::new(alloc, runners.len())?;
    for runner in runners {
        handed.add(runner)?;
    }
    Ok(handed)
}

impl Handed {
    // Nothing yet, with room for so many threads.
    fn new(alloc: Global, threads: usize) -> Result<Handed, OutOfMemory>
        ensures threads { IfOk result (λ handed. handed.threads.items ≡ []) }
        ensures notes { IfOk result (λ handed. handed.notes ≡ []) }
        ensures channels { IfOk result (λ handed. handed.channels.items ≡ []) }
        ensures seats { IfOk result (λ handed. handed.seats.items ≡ []) }
    {
        Ok(Handed {
            threads: Vec::with_capacity(alloc, threads)?,
            notes: Seq::new(alloc),
            channels: Vec::with_capacity(alloc, threads)?,
            seats: Vec::with_capacity(alloc, threads)?,
        })
    }

    // Takes one runner more apart.
    fn add<P: Prober>(&mut self, runner: Runner<'_, P, BookHand<'_>>) -> Result<(), OutOfMemory>
        ensures threads { OnOk result (self.new.threads.items
            ≡ self.old.threads.items ++ runner.entry.worker.thread ∷ []) }
        ensures notes { OnOk result (self.new.notes
            ≡ self.old.notes ++ runner.entry.worker.note ∷ []) }
        ensures channels { OnOk result (self.new.channels.items
            ≡ self.old.channels.items ++ runner.entry.channels.channels ∷ []) }
        ensures seats { OnOk result (self.new.seats.items
            ≡ self.old.seats.items ++ runner.entry.channels.hand.seats ∷ []) }
    {
        let Runner { worker, channels } = runner;
        let Worker { thread, note } = worker;
        let Channels {
            thread: _,
            numbers: _,
            probes: _,
            channels,
            hand,
            words: _,
        } = channels;
        let BookHand { books: _, seats } = hand;
        self.threads.push(thread)?;
        self.notes.push(note)?;
        self.channels.push(channels)?;
        self.seats.push(seats)?;
        Ok(())
    }
}
