ghost use Rattle.std.specs.Prelude.{◌≡◌, ◌<◌, ◌^◌, true, ◌&&◌, if◌then◌else◌, List, [], ◌∷◌, ◌++◌};
ghost use Rattle.std.specs.Prelude.{All, IfOk, IfSome, OnErr, OnOk, map};
ghost use Rattle.std.specs.Prelude.{is_some, option_copied, option_map};
ghost use Rattle.cal_channel.specs.Channels.{CanTake, TakesMore};
ghost use Rattle.cal_channel.specs.Closing.{IsRead};
ghost use Rattle.cal_channel.specs.Shown.{numbered_entry};
ghost use Rattle.cal_channel.specs.Values.{Counted, HasRoom, KeepsServices, new_channel};
ghost use Rattle.cal_channel.specs.Values.{started_at, with_table};
ghost use Rattle.cal_hand.specs.Nodes.{NodeAt};
ghost use Rattle.cal_run.specs.Adding.{MayAskFor, MayHavePlaces};
ghost use Rattle.cal_run.specs.Held.{Shows};
ghost use Rattle.cal_run.specs.Lines.{operation_of, takes};
ghost use Rattle.cal_run.specs.Numbers.{AreNamed, AreNamedInSome};
ghost use Rattle.cal_run.specs.Snapshots.{Sight, snapshot_of};
ghost use Rattle.cal_table.specs.Snapshots.{HasNumberOf64};
ghost use Rattle.cal_table.specs.Tables.{empty_table};
ghost use Rattle.cal_value.specs.declared.attribute.Attribute as attributes_of;

use crate::{ClosedNodes, SnapDraft, Trace};
use cal_run::{Moment, Numbers, Operation, Prober, operation_of, takes};
use cal_script::{Channel, Line, Script};
use cal_snap::NumberedSnap;
use cal_table::{Table, TableShape};
use cal_value::OutOfMemory;
use cal_words::NodeId;
use std::alloc::Global;
use std::marker::Model;

/// What a channel of a thread keeps: the reading of its snapshot before, its trace if the channel
/// has one, and its table if it aggregates.
#[derive(Drop)]
pub struct ThreadChannel {
    previous: u64,
    trace: Option<Trace>,
    table: Option<Table>,
    draft: SnapDraft,
    snap: NumberedSnap,
}

impl Model for ThreadChannel {
    ghost use Rattle.cal_channel.specs.Values.{ChannelValue};

    ghost Value = { ChannelValue };

    ghost view = { λ c. record { previous = c.previous; trace = c.trace; table = c.table } };
}

impl ThreadChannel {
    /// A channel that has taken nothing. It has a trace where the script's channel has one, and a
    /// table where a shape is given, for whose copy it takes memory.
    pub fn new(
        alloc: Global,
        channel: &Channel,
        shape: Option<&TableShape>,
    ) -> Result<ThreadChannel, OutOfMemory>
        ensures { IfOk result (λ c. c ≡ new_channel channel.now.trace (option_copied shape.entry)) }
    {
        let trace = new_trace(alloc, channel.trace);
        let table = new_table(alloc, shape)?;
        Ok(ThreadChannel {
            previous: 0,
            trace,
            table,
            draft: SnapDraft::new(alloc),
            snap: NumberedSnap::new(alloc),
        })
    }

    /// Keeps the thread's start reading, which is the first one before.
    pub fn start(&mut self, reading: u64)
        ensures { self.new ≡ started_at self.old reading }
    {
        let _ = &self.trace;
        let _ = &self.table;
        self.previous = reading;
    }

    /// The reading of the snapshot before.
    pub fn previous(&self) -> u64
        ensures { result ≡ self.now.previous }
    {
        let _ = &self.trace;
        let _ = &self.table;
        self.previous
    }

    /// The trace, if the channel has one.
    pub fn trace(&self) -> Option<&Trace>
        ensures { option_copied result ≡ self.now.trace }
    {
        let _ = &self.table;
        self.trace.as_ref()
    }

    /// The table, if the channel has one.
    pub fn table(&self) -> Option<&Table>
        ensures { option_copied result ≡ self.now.table }
    {
        let _ = &self.trace;
        self.table.as_ref()
    }

    /// Takes the snapshot of a line on which the channel takes one: of what a moment shows, which
    /// was made with the reading of the snapshot before (`previous`). The trace is longer by it and
    /// the table stands for it too. An `Err` may leave more in the trace than in the table.
    pub fn take<P: Prober>(
        &mut self,
        alloc: Global,
        script: &Script,
        numbers: &Numbers,
        channel: &Channel,
        op: Option<Operation>,
        moment: &Moment<NodeId>,
        nodes: &ClosedNodes,
        prober: &P,
    ) -> Result<(), OutOfMemory>
        requires named { AreNamedInSome script.now numbers.now }
        requires places { MayHavePlaces script.now op }
        requires timed { channel.now.timer ≡ true → moment.now.timed ≡ true }
        requires can { CanTake nodes.now.tree.now nodes.now.seat.now script.now moment.now
            channel.now op }
        requires asked { MayAskFor (IsRead nodes.now.tree.now nodes.now.seat.now
            nodes.now.closed.now) script.now moment.now op }
        requires room { HasRoom self.old }
        ensures takes { OnOk result ((attributes : List attributes_of.Attribute) (s : Sight)
            → AreNamed attributes script.now numbers.now
            → Shows (NodeAt nodes.now.tree.now nodes.now.seat.now) script.now moment.now s
            → TakesMore attributes script.now nodes.now.tree.now nodes.now.seat.now self.old
            self.new (snapshot_of script.now s channel.now op ∷ [])) }
        ensures services { OnOk result (KeepsServices self.old self.new) }
        ensures previous { OnOk result (self.new.previous
            ≡ (if channel.now.timer then moment.now.reading else self.old.previous)) }
    {
        let shown = Moment {
            board: moment.board,
            readings: moment.readings,
            process: moment.process,
            reading: moment.reading,
            previous: moment.previous,
            timed: channel.timer,
        };
        self.draft
            .fill(alloc, script, numbers, channel, op, &shown, nodes, prober)?;
        add_to_trace(alloc, &mut self.trace, &self.draft)?;
        add_to_table(
            alloc,
            script,
            &mut self.table,
            &mut self.snap,
            &mut self.draft,
        )?;
        self.previous = previous_after(channel.timer, moment.reading, self.previous);
        Ok(())
    }

    /// Takes the snapshot of a line, if the channel takes one on it, and says whether it does: on a
    /// line that is accepted and on which it takes snapshots. An `Err` is one of `take`.
    pub fn take_if<P: Prober>(
        &mut self,
        alloc: Global,
        script: &Script,
        numbers: &Numbers,
        channel: &Channel,
        line: Line,
        accepted: bool,
        moment: &Moment<NodeId>,
        nodes: &ClosedNodes,
        prober: &P,
    ) -> Result<bool, OutOfMemory>
        requires named { AreNamedInSome script.now numbers.now }
        requires places { MayHavePlaces script.now (operation_of line) }
        requires timed { channel.now.timer ≡ true → moment.now.timed ≡ true }
        requires can { (accepted && takes script.now channel.now line) ≡ true
            → CanTake nodes.now.tree.now nodes.now.seat.now script.now moment.now channel.now
            (operation_of line) }
        requires asked { MayAskFor (IsRead nodes.now.tree.now nodes.now.seat.now
            nodes.now.closed.now) script.now moment.now (operation_of line) }
        requires room { HasRoom self.old }
        ensures answer { IfOk result
            (λ taken. taken ≡ (accepted && takes script.now channel.now line)) }
        ensures takes { OnOk result ((attributes : List attributes_of.Attribute) (s : Sight)
            → AreNamed attributes script.now numbers.now
            → Shows (NodeAt nodes.now.tree.now nodes.now.seat.now) script.now moment.now s
            → TakesMore attributes script.now nodes.now.tree.now nodes.now.seat.now self.old
            self.new (if accepted && takes script.now channel.now line
            then snapshot_of script.now s channel.now (operation_of line) ∷ [] else [])) }
        ensures services { OnOk result (KeepsServices self.old self.new) }
        ensures previous { OnOk result (self.new.previous
            ≡ (if channel.now.timer && (accepted && takes script.now channel.now line)
            then moment.now.reading else self.old.previous)) }
    {
        if is_taking(script, channel, line, accepted) {
            let op = operation_of(line);
            self.take(alloc, script, numbers, channel, op, moment, nodes, prober)?;
            Ok(true)
        } else {
            Ok(false)
        }
    }

    /// Takes the table out, for a flush: what was taken since the part before it. An `Err` leaves
    /// the channel.
    pub fn part(&mut self) -> Result<Table, OutOfMemory>
        requires { is_some self.old.table ≡ true }
        ensures part { IfOk result (λ part. self.old.table ≡ Some part) }
        ensures left { IfOk result
            (λ part. self.new ≡ with_table self.old (empty_table part.shape)) }
        ensures err { OnErr result (self.new ≡ self.old) }
    {
        let _ = &self.trace;
        let part = take_part(&mut self.table)?;
        Ok(part)
    }

    /// Puts a part back that a flush didn't merge, where nothing was taken since.
    pub fn give_back(&mut self, part: Table)
        requires { self.old.table ≡ Some (empty_table part.shape) }
        ensures { self.new ≡ with_table self.old part }
    {
        let _ = &self.trace;
        put_back(&mut self.table, part);
    }
}

/// Adds a snapshot to a trace, if there is one. An `Err` leaves it.
fn add_to_trace(
    alloc: Global,
    trace: &mut Option<Trace>,
    draft: &SnapDraft,
) -> Result<(), OutOfMemory>
    ensures { OnOk result (trace.new ≡ option_map (λ snaps. snaps ++ record {
      nodes = draft.now.nodes.items;
      entries = draft.now.entries.items;
    } ∷ []) trace.old) }
{
    match trace {
        Some(trace) => {
            trace.push(alloc, draft)?;
            Ok(())
        }
        None => Ok(()),
    }
}

/// Adds a snapshot to a table, if there is one, as `snap`, which it fills with what the table looks
/// at, and into which the nodes move. An `Err` leaves the table.
fn add_to_table(
    alloc: Global,
    script: &Script,
    table: &mut Option<Table>,
    snap: &mut NumberedSnap,
    draft: &mut SnapDraft,
) -> Result<(), OutOfMemory>
    requires room { IfSome table.old (λ table. table.snapshots < 2 ^ 20) }
    requires small { All HasNumberOf64
        (map (numbered_entry script.now.values) draft.old.entries.items) }
    ensures { OnOk result (Counted draft.old.nodes.items
        (map (numbered_entry script.now.values) draft.old.entries.items) table.old table.new) }
{
    match table {
        None => Ok(()),
        Some(table) => {
            draft.number(alloc, script, table, snap)?;
            table.add_numbered(snap)?;
            Ok(())
        }
    }
}

/// The reading before, behind a snapshot at a reading: that one, where the channel has the timer.
fn previous_after(timer: bool, reading: u64, previous: u64) -> u64
    ensures { result ≡ (if timer then reading else previous) }
{
    if timer { reading } else { previous }
}

/// Whether a channel takes a snapshot on a line, of which it is known whether it is accepted.
fn is_taking(script: &Script, channel: &Channel, line: Line, accepted: bool) -> bool
    ensures { result ≡ (accepted && takes script.now channel.now line) }
{
    if accepted {
        takes(script, channel, line)
    } else {
        false
    }
}

/// Takes the table out and leaves an empty one. An `Err` leaves it.
fn take_part(table: &mut Option<Table>) -> Result<Table, OutOfMemory>
    requires { is_some table.old ≡ true }
    ensures part { IfOk result (λ part. table.old ≡ Some part) }
    ensures left { IfOk result (λ part. table.new ≡ Some (empty_table part.shape)) }
    ensures err { OnErr result (table.new ≡ table.old) }
{
    match table {
        Some(table) => {
            let part = table.take()?;
            Ok(part)
        }
        None => unreachable!(),
    }
}

/// Puts a table into the place of another one.
fn put_back(table: &mut Option<Table>, part: Table)
    requires { is_some table.old ≡ true }
    ensures { table.new ≡ Some part }
{
    match table {
        Some(table) => table.put_back(part),
        None => unreachable!(),
    }
}

fn new_trace(alloc: Global, has_trace: bool) -> Option<Trace>
    ensures { result ≡ (if has_trace then Some [] else None) }
{
    if has_trace {
        Some(Trace::new(alloc))
    } else {
        None
    }
}

fn new_table(alloc: Global, shape: Option<&TableShape>) -> Result<Option<Table>, OutOfMemory>
    ensures { IfOk result (λ table. table ≡ option_map empty_table (option_copied shape.entry)) }
{
    match shape {
        Some(shape) => {
            let table = Table::new(alloc, shape)?;
            Ok(Some(table))
        }
        None => Ok(None),
    }
}
