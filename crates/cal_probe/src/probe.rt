//! A function that answers a probe, kept beside the fact that it does.
ghost use Rattle.std.specs.Prelude.{◌≡◌};
ghost use Rattle.cal_run.specs.Snapshots.{CanBeAsked, probe_value};
ghost use Rattle.cal_probe.specs.Probing.{IsProbeOf};

use cal_script::ProbeKind;

/// A function that answers the probe of a kind. It is given the depths of a thread's slots, that of
/// `nested` first, and the line's reading.
#[derive(Drop)]
pub struct Probe {
    pub kind: ProbeKind,
    call: fn(&[u32], u64) -> u64,
    ghost answers: { IsProbeOf kind (pre call) (post call) },
}

impl Probe {
    /// A probe that calls this function. It takes no memory.
    pub fn new(kind: ProbeKind, call: fn(&[u32], u64) -> u64) -> Probe
        requires { IsProbeOf kind (pre call) (post call) }
        ensures { result.kind ≡ kind }
    {
        Probe { kind, call }
    }

    /// What the function answers on these depths, at a reading.
    pub fn ask(&self, depths: &[u32], reading: u64) -> u64
        requires { CanBeAsked depths.now }
        ensures { result ≡ probe_value self.now.kind depths.now }
    {
        (self.call)(depths, reading)
    }
}
