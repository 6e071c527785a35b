//! The running threads of a run, each with a sender to the run's collector.
ghost use Rattle.std.specs.Prelude.{◌≡◌, ◌+◌, ◌<◌, ◌≤◌, [], IfOk, OnOk, length};
ghost use Rattle.cal_collect.specs.Collecting.{HasMerged, senders_in};
ghost use Rattle.cal_live_run.specs.Hired.{AreHiredToSend, IsHiredToSend};
ghost use Rattle.cal_mail.specs.Ends.{AreNewSenders, IsSenderOf, mailbox_of, senders_of, sent_by};
ghost use Rattle.cal_replay.specs.Workers.{script_of};
ghost use Rattle.cal_start.specs.Runs.{IsRun};
ghost use Rattle.cal_thread.specs.Hiring.{HasHired};

use cal_collect::{PartCollector, PartSender, Shapes, open_parts};
use cal_keeping::{Channels, Runner};
use cal_live::SenderHand;
use cal_replay::Worker;
use cal_run::Prober;
use cal_script::{LineNote, Script};
use cal_start::{FirstSeats, Run};
use cal_thread::Thread;
use cal_value::{OutOfMemory, Seq};
use std::alloc::Global;
use std::sync::Wait;

/// A running thread for each thread of the script, in the order of their numbers, with a sender to
/// the collector that is given with them; none is started. The mailbox has room for so many parts.
/// It is called once, behind `Run::new`, and leaves the first seats at the books alone. An `Err` is
/// want of memory: then `first` may have split some seats off.
pub(crate) fn hire_to_send<'r, 'q, P: Prober, Q: Wait, S: Shapes>(
    wait: &'q Q,
    alloc: Global,
    run: &'r Run<'_>,
    probes: &'r P,
    first: &mut FirstSeats,
    room: u32,
) -> Result<
    (
        Vec<Runner<'r, P, SenderHand<'q, Q, S>>>,
        PartCollector<'q, Q, S>,
    ),
    OutOfMemory,
>
    requires run { IsRun run.now }
    requires shapes { S.shapes ≡ run.now.shapes.items }
    requires first { HasHired run.now.shared.common first.old.tree first.old.log 0 }
    requires room { (1 ≤ room) × (room ≤ 1024) }
    ensures hired { IfOk result (λ r. AreHiredToSend S.shapes run.now
        (mailbox_of r.1.collector) r.0.items) }
    ensures first { OnOk result (HasHired run.now.shared.common first.new.tree first.new.log
        (length (script_of run.now.shared).threads)) }
    ensures senders { IfOk result (λ r. senders_of r.1.collector
        ≡ length (script_of run.now.shared).threads) }
    ensures merged { IfOk result (λ r. HasMerged S.shapes r.1) }
{
    let threads = run.shared.common.script.threads.len() as u32;
    let (senders, collector) = open_parts(wait, alloc, threads, run.shapes.as_slice(), room)?;
    let runners = hire_all(alloc, run, probes, senders, first, &collector)?;
    Ok((runners, collector))
}

/// A running thread for each sender of a collector's mailbox.
fn hire_all<'r, 'q, P: Prober, Q: Wait, S: Shapes>(
    alloc: Global,
    run: &'r Run<'_>,
    probes: &'r P,
    senders: Vec<PartSender<'q, Q, S>>,
    first: &mut FirstSeats,
    _collector: &PartCollector<'q, Q, S>,
) -> Result<Vec<Runner<'r, P, SenderHand<'q, Q, S>>>, OutOfMemory>
    requires run { IsRun run.now }
    requires shapes { S.shapes ≡ run.now.shapes.items }
    requires many { length senders.items ≡ length (script_of run.now.shared).threads }
    requires senders { AreNewSenders (mailbox_of _collector.now.collector)
        (senders_in senders.items) }
    requires first { HasHired run.now.shared.common first.old.tree first.old.log 0 }
    ensures hired { IfOk result (λ runners. AreHiredToSend S.shapes run.now
        (mailbox_of _collector.now.collector) runners.items) }
    ensures first { OnOk result (HasHired run.now.shared.common first.new.tree first.new.log
        (length (script_of run.now.shared).threads)) }
{
    let mut runners = Vec::with_capacity(alloc, senders.len())?;
    let mut number = 0;
    for sender in senders {
        let runner = hire_one(alloc, run, number, probes, sender, first, _collector)?;
        runners.push(runner)?;
        number += 1;
    }
    Ok(runners)
}

/// The running thread of a number, with its sender. Those before it are hired.
fn hire_one<'r, 'q, P: Prober, Q: Wait, S: Shapes>(
    alloc: Global,
    run: &'r Run<'_>,
    number: u32,
    probes: &'r P,
    sender: PartSender<'q, Q, S>,
    first: &mut FirstSeats,
    _collector: &PartCollector<'q, Q, S>,
) -> Result<Runner<'r, P, SenderHand<'q, Q, S>>, OutOfMemory>
    requires run { IsRun run.now }
    requires shapes { S.shapes ≡ run.now.shapes.items }
    requires thread { number < length (script_of run.now.shared).threads }
    requires sender { IsSenderOf (mailbox_of _collector.now.collector) number sender.sender }
    requires nothing { sent_by sender.sender ≡ [] }
    requires first { HasHired run.now.shared.common first.old.tree first.old.log number }
    ensures hired { IfOk result (IsHiredToSend S.shapes run.now
        (mailbox_of _collector.now.collector) number) }
    ensures first { OnOk result (HasHired run.now.shared.common first.new.tree first.new.log
        (number + 1)) }
{
    let notes = room_for_notes(alloc, run.shared.common.script, number)?;
    let timed = run.shared.timers.some;
    let common = &run.shared.common;
    let tree = &mut first.tree;
    let log = &mut first.log;
    let thread = Thread::hire(alloc, common, number, timed, tree, log);
    let worker = Worker::new(thread, notes);
    let channels = Channels::new(
        alloc,
        run.shared.common.script,
        number,
        &run.numbers,
        run.shapes.as_slice(),
        probes,
        SenderHand::new(sender),
    )?;
    Ok(Runner { worker, channels })
}

/// Room for a note of each line of a thread, and no note.
fn room_for_notes(alloc: Global, script: &Script, thread: u32) -> Result<Seq<LineNote>, OutOfMemory>
    requires { thread < length script.now.threads }
    ensures { IfOk result (λ notes. notes ≡ []) }
{
    let lines = &script.threads.as_slice()[thread as usize];
    Ok(Seq::from_vec(Vec::with_capacity(alloc, lines.len())?))
}
