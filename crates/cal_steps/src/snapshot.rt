//! A snapshot with entries of its own.
ghost use Rattle.std.specs.Prelude.{◌≡◌, ◌++◌, ◌≤◌, length, map, sum, slice_index_or, IfOk};
ghost use Rattle.std.specs.Prelude.{OnOk, Some};
ghost use Rattle.cal_board.specs.Blackboard.{depths, reply_to};
ghost use Rattle.cal_board.specs.declared.reply.BoardReply.TheVariants as reply;
ghost use Rattle.cal_run.specs.Held.{Accepts, HasPlaces, IsKnown};
ghost use Rattle.cal_run.specs.Lines.{attr_ref, attribute_of};
ghost use Rattle.cal_run.specs.Snapshots.{added, board_of, closed_on, event_entries, event_name};
ghost use Rattle.cal_run.specs.Snapshots.{event_of, inclusive_entries, numbered, probe_entries};
ghost use Rattle.cal_run.specs.Snapshots.{probe_of, probe_value, snapshot_of, time_entries};
ghost use Rattle.cal_run.specs.Snapshots.{value_entries, value_on};
ghost use Rattle.cal_steps.specs.Sights.{CanTake, sight_of};
ghost use Rattle.cal_value.specs.declared.kind.Kind.TheVariants as kind;
ghost use Rattle.cal_words.specs.declared.op.OpCode.TheVariants as code;

use crate::Sight;
use cal_board::PathBoard;
use cal_run::{Operation, attr_ref, is_shared};
use cal_script::{Channel, ProbeKind, Script};
use cal_value::{Attribute, Entry, Kind, OutOfMemory, Props, Rec, Seq, Text, TryCopy, Variant};
use cal_words::OpCode;
use std::alloc::Global;

/// An attribute that a service adds is as value, and no event.
const ADDED: Props = Props(65);

/// The snapshot that a channel takes on an operation, or on none.
pub(crate) fn take_snapshot(
    alloc: Global,
    script: &Script,
    channel: &Channel,
    op: Option<Operation>,
    sight: &Sight,
) -> Result<Rec, OutOfMemory>
    requires can { CanTake script.now (sight_of sight.now) op }
    ensures { IfOk result (λ rec. rec
        ≡ snapshot_of script.now (sight_of sight.now) channel.now op) }
{
    let mut paths = Seq::new(alloc);
    sight.mine.paths(&script.attributes, &mut paths)?;
    sight.process.paths(&script.attributes, &mut paths)?;
    let imms = immediates(alloc, script, channel, op, sight)?;
    Ok(Rec { paths, imms })
}

/// Its immediates: what services add, and the last values of the as-value slots.
fn immediates(
    alloc: Global,
    script: &Script,
    channel: &Channel,
    op: Option<Operation>,
    sight: &Sight,
) -> Result<Seq<Entry>, OutOfMemory>
    requires can { CanTake script.now (sight_of sight.now) op }
    ensures { IfOk result (λ imms. imms ≡ event_entries script.now (sight_of sight.now) op
        ++ time_entries script.now (sight_of sight.now) channel.now.timer op
        ++ probe_entries script.now (sight_of sight.now) channel.now.probes
        ++ value_entries script.now (sight_of sight.now)) }
{
    let mut imms = Seq::new(alloc);
    add_event(alloc, script, op, sight, &mut imms)?;
    add_times(alloc, script, channel.timer, op, sight, &mut imms)?;
    add_probes(alloc, channel.probes.as_slice(), sight.mine, &mut imms)?;
    sight.mine.immediates(&script.attributes, &mut imms)?;
    sight.process.immediates(&script.attributes, &mut imms)?;
    Ok(imms)
}

/// Adds the event of an operation, if there is one.
fn add_event(
    alloc: Global,
    script: &Script,
    op: Option<Operation>,
    sight: &Sight,
    out: &mut Seq<Entry>,
) -> Result<(), OutOfMemory>
    requires can { CanTake script.now (sight_of sight.now) op }
    ensures { OnOk result (out.new
        ≡ out.old ++ event_entries script.now (sight_of sight.now) op) }
{
    match op {
        None => Ok(()),
        Some(op) => {
            let entry = event_entry(alloc, script, op, sight)?;
            out.push(entry)
        }
    }
}

/// The entry of an operation's event.
fn event_entry(
    alloc: Global,
    script: &Script,
    op: Operation,
    sight: &Sight,
) -> Result<Entry, OutOfMemory>
    requires can { CanTake script.now (sight_of sight.now) (Some op) }
    ensures attr { IfOk result (λ entry. entry.attr
        ≡ event_of op.code (attribute_of script.now op.attr)) }
    ensures value { IfOk result (λ entry. entry.value
        ≡ value_on script.now (board_of script.now (sight_of sight.now) op) op.code op) }
{
    let attr = event_attribute(
        alloc,
        op.code,
        &script.attributes.as_slice()[op.attr as usize],
    )?;
    let value = if is_shared(script, op) {
        value_on(alloc, script, op, sight.process)?
    } else {
        value_on(alloc, script, op, sight.mine)?
    };
    Ok(Entry { attr, value })
}

/// The attribute of the events of an attribute.
fn event_attribute(
    alloc: Global,
    code: OpCode,
    attribute: &Attribute,
) -> Result<Attribute, OutOfMemory>
    ensures { IfOk result (λ attr. attr ≡ event_of code attribute.now) }
{
    let mut name = Text::from_str(alloc, event_name(code))?;
    name.push_str(attribute.name.as_str())?;
    Ok(Attribute {
        name,
        kind: attribute.kind,
        props: ADDED,
    })
}

fn event_name(code: OpCode) -> &'static str
    ensures { result.now ≡ event_name code }
{
    match code {
        OpCode::Begin => "event.begin#",
        OpCode::End => "event.end#",
        OpCode::Set => "event.set#",
    }
}

/// The value that an operation opens or closes on its board.
fn value_on(
    alloc: Global,
    script: &Script,
    op: Operation,
    board: &PathBoard,
) -> Result<Variant, OutOfMemory>
    requires known { IsKnown script.now board.now }
    requires places { HasPlaces script.now op }
    requires accepts { Accepts script.now board.now op }
    ensures { IfOk result (λ value. value ≡ value_on script.now board.now op.code op) }
{
    match op.code {
        OpCode::Begin | OpCode::Set => script.values.at(op.value as usize).copy(alloc),
        OpCode::End => closed(alloc, script, op, board),
    }
}

/// The value that an `end` closes.
fn closed(
    alloc: Global,
    script: &Script,
    op: Operation,
    board: &PathBoard,
) -> Result<Variant, OutOfMemory>
    requires known { IsKnown script.now board.now }
    requires closes { reply_to board.now code.End (attr_ref script.now op.attr) ≡ reply.Done }
    ensures { IfOk result (λ value. value ≡ closed_on script.now board.now op) }
{
    let entry = board.last(alloc, &script.attributes, attr_ref(script, op.attr))?;
    Ok(entry.value)
}

/// Adds the time since the snapshot before, and at an end that of the value that is closed, where
/// the channel has the timer.
fn add_times(
    alloc: Global,
    script: &Script,
    timer: bool,
    op: Option<Operation>,
    sight: &Sight,
    out: &mut Seq<Entry>,
) -> Result<(), OutOfMemory>
    ensures { OnOk result (out.new
        ≡ out.old ++ time_entries script.now (sight_of sight.now) timer op) }
{
    if !timer {
        return Ok(());
    }
    let since = sight.reading.saturating_sub(sight.previous);
    out.push(numbered(alloc, "time.duration.ns", since)?)?;
    match op {
        None => Ok(()),
        Some(op) => add_inclusive(alloc, script, op, sight, out),
    }
}

fn add_inclusive(
    alloc: Global,
    script: &Script,
    op: Operation,
    sight: &Sight,
    out: &mut Seq<Entry>,
) -> Result<(), OutOfMemory>
    ensures { OnOk result (out.new
        ≡ out.old ++ inclusive_entries script.now (sight_of sight.now) (Some op)) }
{
    if op.code == OpCode::End && !is_shared(script, op) {
        let opened = sight.readings.last(attr_ref(script, op.attr));
        let inclusive = sight.reading.saturating_sub(opened);
        out.push(numbered(alloc, "time.inclusive.duration.ns", inclusive)?)
    } else {
        Ok(())
    }
}

/// The entry of a number that a service adds.
fn numbered(alloc: Global, name: &str, n: u64) -> Result<Entry, OutOfMemory>
    ensures { IfOk result (λ entry. entry ≡ numbered (added name.now kind.Uint) n) }
{
    let attr = Attribute {
        name: Text::from_str(alloc, name)?,
        kind: Kind::Uint,
        props: ADDED,
    };
    Ok(Entry {
        attr,
        value: Variant::Uint(n),
    })
}

/// Adds what the probes answer on the thread's board.
fn add_probes(
    alloc: Global,
    probes: &[ProbeKind],
    board: &PathBoard,
    out: &mut Seq<Entry>,
) -> Result<(), OutOfMemory>
    ensures { OnOk result (out.new ≡ out.old
        ++ map (λ p. numbered (probe_of p) (probe_value p (depths board.now))) probes.now) }
{
    let mut depths = [0; 65];
    let count = board.depths(&mut depths);
    push_probes(alloc, probes, &depths[..count], out)
}

fn push_probes(
    alloc: Global,
    probes: &[ProbeKind],
    depths: &[u32],
    out: &mut Seq<Entry>,
) -> Result<(), OutOfMemory>
    requires few { length depths.now ≤ 65 }
    ensures { OnOk result (out.new ≡ out.old
        ++ map (λ p. numbered (probe_of p) (probe_value p depths.now)) probes.now) }
{
    for probe in probes {
        let entry = probe_entry(alloc, *probe, depths)?;
        out.push(entry)?;
    }
    Ok(())
}

/// The entry of a probe's answer.
fn probe_entry(alloc: Global, kind: ProbeKind, depths: &[u32]) -> Result<Entry, OutOfMemory>
    requires few { length depths.now ≤ 65 }
    ensures { IfOk result (λ entry. entry
        ≡ numbered (probe_of kind) (probe_value kind depths.now)) }
{
    match kind {
        ProbeKind::Depth => numbered(alloc, "region.depth", first_of(depths)),
        ProbeKind::Count => numbered(alloc, "region.count", sum_of(depths)),
    }
}

fn first_of(depths: &[u32]) -> u64
    ensures { result ≡ slice_index_or depths.now 0 0 }
{
    match depths.first() {
        Some(depth) => u64::from(*depth),
        None => 0,
    }
}

fn sum_of(depths: &[u32]) -> u64
    requires { length depths.now ≤ 65 }
    ensures { result ≡ sum depths.now }
{
    let mut sum = 0;
    for depth in depths {
        sum += u64::from(*depth);
    }
    sum
}
