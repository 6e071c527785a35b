//! A probe of each kind.
ghost use Rattle.std.specs.Prelude.{◌≡◌};
ghost use Rattle.cal_script.specs.declared.script.ProbeKind.TheVariants as probe;

use crate::Probe;
use cal_run::Prober;
use cal_script::ProbeKind;

/// A probe of each kind, which answer a run's channels.
#[derive(Drop)]
pub struct Probes {
    depth: Probe,
    count: Probe,
    ghost depth_is: { depth.kind ≡ probe.Depth },
    ghost count_is: { count.kind ≡ probe.Count },
}

impl Probes {
    /// These two probes. It takes no memory.
    pub fn new(depth: Probe, count: Probe) -> Probes
        requires depth { depth.kind ≡ probe.Depth }
        requires count { count.kind ≡ probe.Count }
    {
        Probes { depth, count }
    }
}

impl Prober for Probes {
    fn ask(&self, kind: ProbeKind, depths: &[u32], reading: u64) -> u64 {
        match kind {
            ProbeKind::Depth => self.depth.ask(depths, reading),
            ProbeKind::Count => self.count.ask(depths, reading),
        }
    }
}
