ghost use Rattle.std.specs.Prelude.{◌≡◌, false, true, IfErr, IfOk, OnOk};
ghost use Rattle.std.specs.List.{list_any};
ghost use Rattle.cal_line.specs.FirstFault.{after_lines};
ghost use Rattle.cal_script.specs.Lines.{pieces};
ghost use Rattle.cal_script.specs.Parts.{bare_channel, channel_names, channel_of, is_among, is_probe};
ghost use Rattle.cal_script.specs.Parts.{with_default_values, with_probe, with_service};
ghost use Rattle.cal_script.specs.Registers.{IsChannels};
ghost use Rattle.cal_script.specs.Steps.{Gives, bad_service};

use crate::end::LineEnd;
use crate::names::is_name;
use crate::register::Register;
use crate::words::cut;
use crate::{Channel, ChannelQuery, ProbeKind, ScriptKind};
use cal_value::{OutOfMemory, Seq, Text};
use std::alloc::Global;

const BAD_SERVICE: LineEnd = LineEnd::Bad(ScriptKind::BadService);

fn bare_channel(alloc: Global, name: &str) -> Result<Channel, OutOfMemory>
    ensures { IfOk result (λ channel. channel ≡ bare_channel name.now) }
{
    Ok(Channel {
        name: Text::from_str(alloc, name)?,
        event: false,
        timer: false,
        trace: false,
        aggregate: false,
        probes: Seq::new(alloc),
        query: ChannelQuery {
            by_default: true,
            keys: Seq::new(alloc),
            values: Seq::new(alloc),
        },
    })
}

fn is_probe(probe: ProbeKind, other: ProbeKind) -> bool
    ensures { result ≡ is_probe probe other }
{
    match (probe, other) {
        (ProbeKind::Depth, ProbeKind::Depth) => true,
        (ProbeKind::Count, ProbeKind::Count) => true,
        _ => false,
    }
}

fn has_probe(channel: &Channel, probe: ProbeKind) -> bool
    ensures { result ≡ list_any (is_probe probe) channel.now.probes }
{
    channel
        .probes
        .as_slice()
        .iter()
        .any(|other| is_probe(probe, *other))
}

fn add_probe(channel: &mut Channel, probe: ProbeKind) -> Result<(), LineEnd>
    ensures said { Gives (λ _. channel.new) result (with_probe channel.old probe) }
    ensures name { OnOk result (channel.new.name ≡ channel.old.name) }
{
    if has_probe(channel, probe) {
        return Err(BAD_SERVICE);
    }
    channel.probes.push(probe)?;
    Ok(())
}

fn switch_on(service: &mut bool) -> Result<(), LineEnd>
    ensures on { OnOk result ((service.old ≡ false) × (service.new ≡ true)) }
    ensures repeated { IfErr result (λ end. (service.old ≡ true) × (end ≡ bad_service)) }
{
    if *service {
        return Err(BAD_SERVICE);
    }
    *service = true;
    Ok(())
}

/// Adds the service of this name, which the channel doesn't have.
fn add_service(channel: &mut Channel, word: &str) -> Result<(), LineEnd>
    ensures said { Gives (λ _. channel.new) result (with_service channel.old word.now) }
    ensures name { OnOk result (channel.new.name ≡ channel.old.name) }
{
    match word {
        "event" => switch_on(&mut channel.event),
        "timer" => switch_on(&mut channel.timer),
        "trace" => switch_on(&mut channel.trace),
        "aggregate" => switch_on(&mut channel.aggregate),
        "region.depth" => add_probe(channel, ProbeKind::Depth),
        "region.count" => add_probe(channel, ProbeKind::Count),
        _ => Err(BAD_SERVICE),
    }
}

/// Adds the services between commas.
fn add_services(channel: &mut Channel, services: &str) -> Result<(), LineEnd>
    ensures said { Gives (λ _. channel.new) result
        (after_lines with_service channel.old (pieces 44 services.now)) }
    ensures name { OnOk result (channel.new.name ≡ channel.old.name) }
{
    let mut rest = Some(services);
    while let Some(text) = rest {
        let (word, more) = cut(text, ',');
        add_service(channel, word)?;
        rest = more;
    }
    Ok(())
}

/// Without a `value` line a channel that aggregates and has the timer sums the durations.
fn with_default_values(alloc: Global, mut channel: Channel) -> Result<Channel, OutOfMemory>
    ensures valued { IfOk result (λ valued. valued ≡ with_default_values channel) }
    ensures name { IfOk result (λ valued. valued.name ≡ channel.name) }
{
    if channel.aggregate && channel.timer {
        let duration = Text::from_str(alloc, "time.duration.ns")?;
        channel.query.values.push(duration)?;
    }
    Ok(channel)
}

/// The channel that these words declare.
pub(crate) fn read_channel(
    alloc: Global,
    declared: &Register<Channel>,
    name: &str,
    services: &str,
) -> Result<Channel, LineEnd>
    requires { IsChannels declared.now }
    ensures fresh { IfOk result (λ channel. is_among (channel_names declared.now.items) channel.name
        ≡ false) }
    ensures said { Gives (λ channel. channel) result
        (channel_of declared.now.items (name.now, services.now)) }
{
    if !is_name(name) {
        return Err(LineEnd::Bad(ScriptKind::BadName));
    }
    if declared.has(name) {
        return Err(LineEnd::Bad(ScriptKind::DuplicateName));
    }
    let mut channel = bare_channel(alloc, name)?;
    add_services(&mut channel, services)?;
    if !channel.trace && !channel.aggregate {
        return Err(BAD_SERVICE);
    }
    Ok(with_default_values(alloc, channel)?)
}
