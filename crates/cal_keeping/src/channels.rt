//! What a thread keeps for the channels of its script.
ghost use Rattle.std.specs.Prelude.{◌≡◌, ℕ, ◌≤◌, ◌^◌, Bool, true, All, IfOk, OnOk};
ghost use Rattle.std.specs.Prelude.{length, map};
ghost use Rattle.cal_book.specs.Accounts.{blank};
ghost use Rattle.cal_channel.specs.Values.{ChannelValue, started_at};
ghost use Rattle.cal_keeping.specs.Kept.{AreFresh, AreReady, new_for, new_of};
ghost use Rattle.cal_run.specs.Numbers.{AreNamedInSome};
ghost use Rattle.cal_script.specs.declared.script.Channel as channels_of;

use crate::PartHand;
use cal_channel::ThreadChannel;
use cal_process::Common;
use cal_replay::{Keeper, ShownLine, show};
use cal_run::{Numbers, Prober};
use cal_script::{Channel, Reply, Script};
use cal_table::TableShape;
use cal_thread::Thread;
use cal_value::OutOfMemory;
use std::alloc::Global;

/// What a thread keeps for the channels of its script: what each has taken, in their order, and the
/// hand by which its parts go. The numbers of attributes and the probes are those of all threads.
#[derive(Drop)]
pub struct Channels<'a, P, H> {
    pub thread: u32,
    pub numbers: &'a Numbers,
    pub probes: &'a P,
    pub channels: Vec<ThreadChannel>,
    pub hand: H,
    /// Room for the words of a node that is read.
    pub words: Vec<u64>,
}

impl<'a, P: Prober, H: PartHand + Drop> Channels<'a, P, H> {
    /// What a thread keeps before its first line, with its hand, which has done nothing. A channel
    /// that aggregates has a table of the shape at its place. It takes memory for copies of shapes.
    /// An `Err` is want of it, and drops the hand.
    pub fn new(
        alloc: Global,
        script: &Script,
        thread: u32,
        numbers: &'a Numbers,
        shapes: &[TableShape],
        probes: &'a P,
        hand: H,
    ) -> Result<Channels<'a, P, H>, OutOfMemory>
        requires named { AreNamedInSome script.now numbers.now }
        requires many { length shapes.now ≡ length script.now.channels }
        requires takes { H.takes hand thread shapes.now }
        requires nothing { (place : ℕ) → H.account hand place ≡ blank }
        ensures fresh { IfOk result (λ kept. AreFresh H.account script.now kept) }
        ensures ready { IfOk result (λ kept. (timed : Bool) (left : ℕ) → left ≤ 2 ^ 20
            → All (λ (channel : channels_of.Channel). channel.timer ≡ true → timed ≡ true)
            script.now.channels → AreReady H.account H.takes script.now kept timed left) }
        ensures thread { IfOk result (λ kept. kept.thread ≡ thread) }
        ensures numbers { IfOk result (λ kept. kept.numbers ≡ numbers.entry) }
        ensures probes { IfOk result (λ kept. kept.probes ≡ probes.entry) }
        ensures hand { IfOk result (λ kept. kept.hand ≡ hand) }
    {
        let channels = new_channels(alloc, script.channels.as_slice(), shapes)?;
        Ok(Channels {
            thread,
            numbers,
            probes,
            channels,
            hand,
            words: Vec::new(alloc),
        })
    }

    /// Keeps the thread's start reading in each channel, as that before its first snapshot. It
    /// takes no memory, and time in the channels.
    pub fn start(&mut self, reading: u64)
        ensures started { self.new.channels.items
            ≡ map (λ (c : ChannelValue). started_at c reading) self.old.channels.items }
        ensures same { self.new ≡ record self.old { channels = self.new.channels } }
    {
        start_all(self.channels.as_mut_slice(), reading);
    }
}

/// A channel of a thread for each of the script's.
fn new_channels(
    alloc: Global,
    channels: &[Channel],
    shapes: &[TableShape],
) -> Result<Vec<ThreadChannel>, OutOfMemory>
    requires { length shapes.now ≡ length channels.now }
    ensures { IfOk result (λ made. made.items ≡ new_for channels.now shapes.now) }
{
    let mut made = Vec::with_capacity(alloc, channels.len())?;
    for place in 0..channels.len() {
        made.push(new_channel(alloc, &channels[place], &shapes[place])?)?;
    }
    Ok(made)
}

/// A channel of a thread that has taken nothing, with a table of the shape where it aggregates.
fn new_channel(
    alloc: Global,
    channel: &Channel,
    shape: &TableShape,
) -> Result<ThreadChannel, OutOfMemory>
    ensures { IfOk result (λ made. made ≡ new_of channel.now shape.now) }
{
    if channel.aggregate {
        ThreadChannel::new(alloc, channel, Some(shape))
    } else {
        ThreadChannel::new(alloc, channel, None)
    }
}

/// Keeps the start reading in each channel.
fn start_all(channels: &mut [ThreadChannel], reading: u64)
    ensures { channels.new ≡ map (λ (c : ChannelValue). started_at c reading) channels.old }
{
    for channel in channels.iter_mut() {
        channel.start(reading);
    }
}

/// A line is shown to each channel, and a flush gives what the channel has taken to the hand.
impl<'a, P: Prober, H: PartHand> Keeper for Channels<'a, P, H> {
    ghost use Rattle.cal_keeping.specs.Kept.{AreReady, AreToldOf, IsFlushedAt};

    ghost thread = { λ kept. kept.thread };

    ghost ready = { AreReady H.account H.takes };

    ghost shown = { AreToldOf };

    ghost flushed = { IsFlushedAt H.account H.stays };

    fn show(
        &mut self,
        alloc: Global,
        common: &Common<'_>,
        runner: &mut Thread,
        line: ShownLine,
    ) -> Result<(), OutOfMemory> {
        let numbers = self.numbers;
        let probes = self.probes;
        show(
            alloc,
            common,
            numbers,
            runner,
            line,
            self.channels.as_mut_slice(),
            probes,
            &mut self.words,
        )?;
        Ok(())
    }

    fn flush(&mut self, channel: u32) -> Result<Reply, OutOfMemory> {
        let reply = self
            .hand
            .flush(channel, &mut self.channels[channel as usize])?;
        Ok(reply)
    }
}
