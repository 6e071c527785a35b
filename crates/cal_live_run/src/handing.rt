//! What runners hand over whose senders have ended.
ghost use Rattle.std.specs.Prelude.{◌≡◌, ◌++◌, [], ◌∷◌, All, IfOk, OnOk, Some};
ghost use Rattle.std.specs.Prelude.{is_some, map, true};
ghost use Rattle.cal_live_run.specs.Collected.{IsHandedOver};

use cal_channel::ThreadChannel;
use cal_collect::{Part, Shapes};
use cal_keeping::{Channels, Runner};
use cal_live::SenderHand;
use cal_mail::Ended;
use cal_replay::Worker;
use cal_run::Prober;
use cal_script::ThreadNote;
use cal_thread::Thread;
use cal_value::{OutOfMemory, Seq};
use std::alloc::Global;
use std::sync::Wait;

/// What the threads of a run hand over, each list by threads in their order: the threads, what was
/// noted of them, and of each thread its channels and what is left of its sender.
#[derive(Drop)]
pub struct Sent {
    pub threads: Vec<Thread>,
    pub notes: Seq<ThreadNote>,
    pub channels: Vec<Vec<ThreadChannel>>,
    pub ended: Vec<Ended<Part>>,
}

/// Takes runners apart whose senders have ended. It takes the memory of the lists alone. An `Err`
/// is want of it, and drops the runners.
pub(crate) fn hand_over<P: Prober, Q: Wait, S: Shapes>(
    alloc: Global,
    runners: Vec<Runner<'_, P, SenderHand<'_, Q, S>>>,
) -> Result<Sent, OutOfMemory>
    requires ended { All (λ r. is_some r.channels.hand.ended ≡ true) runners.items }
    ensures { IfOk result (IsHandedOver runners.entry.items) }
{
    let mut sent = Sent::new(alloc, runners.len())?;
    for runner in runners {
        sent.add(runner)?;
    }
    Ok(sent)
}

impl Sent {
    // Nothing yet, with room for so many threads.
    fn new(alloc: Global, threads: usize) -> Result<Sent, OutOfMemory>
        ensures threads { IfOk result (λ sent. sent.threads.items ≡ []) }
        ensures notes { IfOk result (λ sent. sent.notes ≡ []) }
        ensures channels { IfOk result (λ sent. sent.channels.items ≡ []) }
        ensures ended { IfOk result (λ sent. sent.ended.items ≡ []) }
    {
        Ok(Sent {
            threads: Vec::with_capacity(alloc, threads)?,
            notes: Seq::new(alloc),
            channels: Vec::with_capacity(alloc, threads)?,
            ended: Vec::with_capacity(alloc, threads)?,
        })
    }

    // Takes one runner more apart.
    fn add<P: Prober, Q: Wait, S: Shapes>(
        &mut self,
        runner: Runner<'_, P, SenderHand<'_, Q, S>>,
    ) -> Result<(), OutOfMemory>
        requires ended { is_some runner.channels.hand.ended ≡ true }
        ensures threads { OnOk result (self.new.threads.items
            ≡ self.old.threads.items ++ runner.entry.worker.thread ∷ []) }
        ensures notes { OnOk result (self.new.notes
            ≡ self.old.notes ++ runner.entry.worker.note ∷ []) }
        ensures channels { OnOk result (self.new.channels.items
            ≡ self.old.channels.items ++ runner.entry.channels.channels ∷ []) }
        ensures ended { OnOk result (map Some self.new.ended.items
            ≡ map Some self.old.ended.items ++ runner.entry.channels.hand.ended ∷ []) }
    {
        let Runner { worker, channels } = runner;
        let Worker { thread, note } = worker;
        let Channels {
            thread: _,
            numbers: _,
            probes: _,
            channels,
            hand,
            words: _,
        } = channels;
        let Some(ended) = hand.into_ended() else {
            unreachable!()
        };
        self.threads.push(thread)?;
        self.notes.push(note)?;
        self.channels.push(channels)?;
        self.ended.push(ended)?;
        Ok(())
    }
}
