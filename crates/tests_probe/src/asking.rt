//! What a program does that hands over probes.
ghost use Rattle.std.specs.Prelude.{◌≡◌, length};
ghost use Rattle.cal_run.specs.Snapshots.{CanBeAsked, probe_value};
ghost use Rattle.cal_script.specs.declared.script.ProbeKind.TheVariants as probe;

use cal_probe::{Probe, ProbeKind, Probes};
use cal_run::Prober;

/// The values in the slot `nested`, which is the first one.
fn depth_of(depths: &[u32], _reading: u64) -> u64
    requires { CanBeAsked depths.now }
    ensures { result ≡ probe_value probe.Depth depths.now }
{
    u64::from(depths[0])
}

/// The values in all slots.
fn count_of(depths: &[u32], _reading: u64) -> u64
    requires { CanBeAsked depths.now }
    ensures { result ≡ probe_value probe.Count depths.now }
{
    let mut count = 0;
    for depth in depths {
        count += u64::from(*depth);
    }
    count
}

/// The number of slots, which no channel asks for.
fn slots_of(depths: &[u32], _reading: u64) -> u64
    ensures { result ≡ length depths.now }
{
    depths.len() as u64
}

/// What is answered on the slots of a board.
#[derive(Clone, Copy, Debug, PartialEq, Eq)]
pub struct Answers {
    pub depth: u64,
    pub count: u64,
    pub slots: u64,
}

/// What probes answer on these depths, and how many these are.
pub fn all_answers(depths: &[u32], reading: u64) -> Answers
    requires { CanBeAsked depths.now }
    ensures depth { result.depth ≡ probe_value probe.Depth depths.now }
    ensures count { result.count ≡ probe_value probe.Count depths.now }
    ensures slots { result.slots ≡ length depths.now }
{
    let depth = Probe::new(ProbeKind::Depth, depth_of);
    let count = Probe::new(ProbeKind::Count, count_of);
    let probes = Probes::new(depth, count);
    asked(&probes, depths, reading)
}

/// What these answer, which threads may share.
fn asked<P: Prober + Sync>(prober: &P, depths: &[u32], reading: u64) -> Answers
    requires { CanBeAsked depths.now }
    ensures depth { result.depth ≡ probe_value probe.Depth depths.now }
    ensures count { result.count ≡ probe_value probe.Count depths.now }
    ensures slots { result.slots ≡ length depths.now }
{
    Answers {
        depth: prober.ask(ProbeKind::Depth, depths, reading),
        count: prober.ask(ProbeKind::Count, depths, reading),
        slots: slots_of(depths, reading),
    }
}

#[test]
fn two_functions_answer_what_channels_ask(rt: HostRuntime) {
    let told = all_answers(&[2, 0, 5], 7);
    assert!(rt; told.depth == 2 && told.count == 7 && told.slots == 3);
    let alone = all_answers(&[128], 0);
    assert!(rt; alone.depth == 128 && alone.count == 128 && alone.slots == 1);
}
