ghost use Rattle.std.specs.Prelude.{◌≡◌, ◌≤◌, List, length, map, sum, All, OnOk};
ghost use Rattle.cal_run.specs.Adding.{AddsEntries, AddsShown};
ghost use Rattle.cal_run.specs.Numbers.{AreNamed, probe_number};
ghost use Rattle.cal_run.specs.Snapshots.{CanBeAsked, numbered, probe_entries, probe_of};
ghost use Rattle.cal_run.specs.Snapshots.{probe_value};
ghost use Rattle.cal_value.specs.declared.attribute.Attribute as attributes_of;

use crate::Numbers;
use crate::closing::NodeValues;
use crate::moment::Moment;
use crate::sink::ImmediateSink;
use cal_context::AttributeNumber;
use cal_script::{ProbeKind, Script};
use cal_value::OutOfMemory;

/// Whoever answers the probes of channels.
pub trait Prober {
    /// What a probe answers on these depths, at a reading.
    fn ask(&self, kind: ProbeKind, depths: &[u32], reading: u64) -> u64
        requires { CanBeAsked depths.now }
        ensures { result ≡ probe_value kind depths.now };
}

/// Answers by the formulas.
#[derive(Clone, Copy, Debug)]
pub struct Formulas;

impl Prober for Formulas {
    fn ask(&self, kind: ProbeKind, depths: &[u32], _reading: u64) -> u64 {
        match kind {
            ProbeKind::Depth => match depths.first() {
                Some(depth) => u64::from(*depth),
                None => 0,
            },
            ProbeKind::Count => sum_of(depths),
        }
    }
}

fn sum_of(depths: &[u32]) -> u64
    requires { length depths.now ≤ 65 }
    ensures { result ≡ sum depths.now }
{
    let mut sum = 0;
    for depth in depths {
        sum += u64::from(*depth);
    }
    sum
}

/// Adds what the probes answer on the thread's board, which is walked only where there are some.
#[inline(always)]
pub(crate) fn add_probes<N, V: NodeValues<N>, P: Prober, S: ImmediateSink>(
    script: &Script,
    numbers: &Numbers,
    probes: &[ProbeKind],
    moment: &Moment<N>,
    nodes: &V,
    prober: &P,
    out: &mut S,
) -> Result<(), OutOfMemory>
    ensures { OnOk result (AddsShown (V.is_node nodes.now) script.now numbers.now moment.now
        (S.imms out.old script.now.values) (S.imms out.new script.now.values)
        (λ s. probe_entries script.now s probes.now)) }
{
    if probes.is_empty() {
        Ok(())
    } else {
        add_answers(script, numbers, probes, moment, nodes, prober, out)
    }
}

#[inline(never)]
fn add_answers<N, V: NodeValues<N>, P: Prober, S: ImmediateSink>(
    script: &Script,
    numbers: &Numbers,
    probes: &[ProbeKind],
    moment: &Moment<N>,
    nodes: &V,
    prober: &P,
    out: &mut S,
) -> Result<(), OutOfMemory>
    ensures { OnOk result (AddsShown (V.is_node nodes.now) script.now numbers.now moment.now
        (S.imms out.old script.now.values) (S.imms out.new script.now.values)
        (λ s. probe_entries script.now s probes.now)) }
{
    let _ = nodes;
    let mut depths = [0; 65];
    moment.board.has_few_slots();
    let count = moment.board.depths(&mut depths);
    let reading = moment.reading;
    push_probes(
        script,
        numbers,
        probes,
        &depths[..count],
        reading,
        prober,
        out,
    )
}

fn push_probes<P: Prober, S: ImmediateSink>(
    script: &Script,
    numbers: &Numbers,
    probes: &[ProbeKind],
    depths: &[u32],
    reading: u64,
    prober: &P,
    out: &mut S,
) -> Result<(), OutOfMemory>
    requires { CanBeAsked depths.now }
    ensures { OnOk result ((attributes : List attributes_of.Attribute)
        → AreNamed attributes script.now numbers.now
        → AddsEntries attributes (S.imms out.old script.now.values)
        (S.imms out.new script.now.values)
        (map (λ p. numbered (probe_of p) (probe_value p depths.now)) probes.now)) }
{
    let _ = script;
    for probe in probes {
        let attribute = probe_number(numbers, *probe);
        out.push_number(attribute, prober.ask(*probe, depths, reading))?;
    }
    Ok(())
}

/// The number of the attribute of a probe.
fn probe_number(numbers: &Numbers, kind: ProbeKind) -> AttributeNumber
    ensures { result ≡ probe_number numbers.now kind }
{
    match kind {
        ProbeKind::Depth => numbers.depth,
        ProbeKind::Count => numbers.count,
    }
}
