ghost use Rattle.std.specs.Prelude.{◌≡◌, List, ◌++◌, true, OnOk, Some};
ghost use Rattle.cal_run.specs.Adding.{AddsShown, AsksFor, IsEventValue, MayAskFor, MayHavePlaces};
ghost use Rattle.cal_run.specs.Adding.{ShowsSome, board_in};
ghost use Rattle.cal_run.specs.Held.{HasPlaces, Shows};
ghost use Rattle.cal_run.specs.Lines.{attribute_of};
ghost use Rattle.cal_run.specs.Numbers.{AreNamed, AreNamedInSome, IsNumber};
ghost use Rattle.cal_run.specs.Snapshots.{Sight, board_of, event_entries, event_of};
ghost use Rattle.cal_run.specs.Snapshots.{inclusive_entries, probe_entries};
ghost use Rattle.cal_run.specs.Snapshots.{time_entries, value_entries, value_on};
ghost use Rattle.cal_value.specs.declared.attribute.Attribute as attributes_of;

use crate::closing::{NodeValues, event_value};
use crate::lines::{attr_ref, is_shared};
use crate::moment::Moment;
use crate::probes::{Prober, add_probes};
use crate::sink::{EventValue, ImmediateSink};
use crate::{Numbers, Operation};
use cal_context::AttributeNumber;
use cal_script::{Channel, Script};
use cal_value::OutOfMemory;
use cal_words::OpCode;
use std::alloc::Global;

/// Adds the immediates of the snapshot that a channel takes of a moment: what its services say of
/// it, and the last values of the as-value slots of the thread and then of the process.
#[inline(always)]
pub fn add_immediates<N, V: NodeValues<N>, P: Prober, S: ImmediateSink>(
    alloc: Global,
    script: &Script,
    numbers: &Numbers,
    channel: &Channel,
    op: Option<Operation>,
    moment: &Moment<N>,
    nodes: &V,
    prober: &P,
    out: &mut S,
) -> Result<(), OutOfMemory>
    requires named { AreNamedInSome script.now numbers.now }
    requires places { MayHavePlaces script.now op }
    requires timed { moment.now.timed ≡ channel.now.timer }
    requires shown { ShowsSome (V.is_node nodes.now) script.now moment.now }
    requires values { V.has_values nodes.now script.now.values }
    requires asked { MayAskFor (V.is_asked nodes.now) script.now moment.now op }
    ensures { OnOk result (AddsShown (V.is_node nodes.now) script.now numbers.now moment.now
        (S.imms out.old script.now.values) (S.imms out.new script.now.values)
        (λ s. event_entries script.now s op ++ time_entries script.now s channel.now.timer op
        ++ probe_entries script.now s channel.now.probes ++ value_entries script.now s)) }
{
    add_event(alloc, script, numbers, op, moment, nodes, out)?;
    add_times(script, numbers, channel.timer, op, moment, nodes, out)?;
    let probes = channel.probes.as_slice();
    add_probes(script, numbers, probes, moment, nodes, prober, out)?;
    add_values(alloc, script, numbers, moment, nodes, out)
}

/// Adds the event of an operation, if there is one.
#[inline(always)]
fn add_event<N, V: NodeValues<N>, S: ImmediateSink>(
    alloc: Global,
    script: &Script,
    numbers: &Numbers,
    op: Option<Operation>,
    moment: &Moment<N>,
    nodes: &V,
    out: &mut S,
) -> Result<(), OutOfMemory>
    requires named { AreNamedInSome script.now numbers.now }
    requires places { MayHavePlaces script.now op }
    requires shown { ShowsSome (V.is_node nodes.now) script.now moment.now }
    requires values { V.has_values nodes.now script.now.values }
    requires asked { MayAskFor (V.is_asked nodes.now) script.now moment.now op }
    ensures { OnOk result (AddsShown (V.is_node nodes.now) script.now numbers.now moment.now
        (S.imms out.old script.now.values) (S.imms out.new script.now.values)
        (λ s. event_entries script.now s op)) }
{
    match op {
        None => Ok(()),
        Some(op) => add_event_of(alloc, script, numbers, op, moment, nodes, out),
    }
}

#[inline(always)]
fn add_event_of<N, V: NodeValues<N>, S: ImmediateSink>(
    alloc: Global,
    script: &Script,
    numbers: &Numbers,
    op: Operation,
    moment: &Moment<N>,
    nodes: &V,
    out: &mut S,
) -> Result<(), OutOfMemory>
    requires named { AreNamedInSome script.now numbers.now }
    requires places { HasPlaces script.now op }
    requires shown { ShowsSome (V.is_node nodes.now) script.now moment.now }
    requires values { V.has_values nodes.now script.now.values }
    requires asked { AsksFor (V.is_asked nodes.now) script.now (board_in script.now moment.now op) op }
    ensures { OnOk result (AddsShown (V.is_node nodes.now) script.now numbers.now moment.now
        (S.imms out.old script.now.values) (S.imms out.new script.now.values)
        (λ s. event_entries script.now s (Some op))) }
{
    let attribute = event_number(script, numbers, op);
    let value = shown_value(script, op, moment, nodes);
    out.push_value(alloc, script, attribute, value)
}

/// The value of an event, by the board of the moment that its operation acts on.
#[inline(always)]
fn shown_value<'a, N, V: NodeValues<N>>(
    script: &Script,
    op: Operation,
    moment: &'a Moment<'a, N>,
    nodes: &'a V,
) -> EventValue<'a>
    requires places { HasPlaces script.now op }
    requires shown { ShowsSome (V.is_node nodes.now) script.now moment.now }
    requires values { V.has_values nodes.now script.now.values }
    requires asked { AsksFor (V.is_asked nodes.now) script.now (board_in script.now moment.now op) op }
    ensures { (s : Sight) → Shows (V.is_node nodes.now) script.now moment.now s
        → IsEventValue script.now.values result
        (value_on script.now (board_of script.now s op) op.code op) }
{
    if is_shared(script, op) {
        event_value(script, op, moment.process, nodes)
    } else {
        event_value(script, op, moment.board, nodes)
    }
}

/// The number of the attribute of an operation's event.
#[inline(always)]
fn event_number(script: &Script, numbers: &Numbers, op: Operation) -> AttributeNumber
    requires named { AreNamedInSome script.now numbers.now }
    requires places { HasPlaces script.now op }
    ensures { (attributes : List attributes_of.Attribute)
        → AreNamed attributes script.now numbers.now
        → IsNumber attributes result (event_of op.code (attribute_of script.now op.attr)) }
{
    let _ = script;
    let events = numbers.events[op.attr as usize];
    match op.code {
        OpCode::Begin => events.begin,
        OpCode::End => events.end,
        OpCode::Set => events.set,
    }
}

/// Adds the time since the snapshot before, and at an end that of the value that is closed, where
/// the channel has the timer.
#[inline(always)]
fn add_times<N, V: NodeValues<N>, S: ImmediateSink>(
    script: &Script,
    numbers: &Numbers,
    timer: bool,
    op: Option<Operation>,
    moment: &Moment<N>,
    nodes: &V,
    out: &mut S,
) -> Result<(), OutOfMemory>
    requires timed { moment.now.timed ≡ timer }
    ensures { OnOk result (AddsShown (V.is_node nodes.now) script.now numbers.now moment.now
        (S.imms out.old script.now.values) (S.imms out.new script.now.values)
        (λ s. time_entries script.now s timer op)) }
{
    if !timer {
        return Ok(());
    }
    let since = moment.reading.saturating_sub(moment.previous);
    out.push_number(numbers.duration, since)?;
    match op {
        None => Ok(()),
        Some(op) => add_inclusive(script, numbers, op, moment, nodes, out),
    }
}

#[inline(always)]
fn add_inclusive<N, V: NodeValues<N>, S: ImmediateSink>(
    script: &Script,
    numbers: &Numbers,
    op: Operation,
    moment: &Moment<N>,
    nodes: &V,
    out: &mut S,
) -> Result<(), OutOfMemory>
    requires timed { moment.now.timed ≡ true }
    ensures { OnOk result (AddsShown (V.is_node nodes.now) script.now numbers.now moment.now
        (S.imms out.old script.now.values) (S.imms out.new script.now.values)
        (λ s. inclusive_entries script.now s (Some op))) }
{
    let _ = nodes;
    if op.code == OpCode::End && !is_shared(script, op) {
        let opened = moment.readings.last(attr_ref(script, op.attr));
        let inclusive = moment.reading.saturating_sub(opened);
        out.push_number(numbers.inclusive, inclusive)
    } else {
        Ok(())
    }
}

/// Adds the last value of each as-value slot of the thread, then of the process.
#[inline(always)]
fn add_values<N, V: NodeValues<N>, S: ImmediateSink>(
    alloc: Global,
    script: &Script,
    numbers: &Numbers,
    moment: &Moment<N>,
    nodes: &V,
    out: &mut S,
) -> Result<(), OutOfMemory>
    ensures { OnOk result (AddsShown (V.is_node nodes.now) script.now numbers.now moment.now
        (S.imms out.old script.now.values) (S.imms out.new script.now.values)
        (λ s. value_entries script.now s)) }
{
    let _ = script;
    let _ = numbers;
    let _ = nodes;
    out.push_values(alloc, moment.board)?;
    out.push_values(alloc, moment.process)
}
