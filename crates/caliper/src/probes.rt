//! The two functions that answer the probes of a run's channels.
ghost use Rattle.std.specs.Prelude.{◌≡◌};
ghost use Rattle.cal_run.specs.Snapshots.{CanBeAsked, probe_value};
ghost use Rattle.cal_script.specs.declared.script.ProbeKind.TheVariants as probe;

/// How many values a thread has open in the nested list, which is its first.
pub fn depth_of(depths: &[u32], _reading: u64) -> u64
    requires { CanBeAsked depths.now }
    ensures { result ≡ probe_value probe.Depth depths.now }
{
    u64::from(depths[0])
}

/// How many it has open in all its lists.
pub fn count_of(depths: &[u32], _reading: u64) -> u64
    requires { CanBeAsked depths.now }
    ensures { result ≡ probe_value probe.Count depths.now }
{
    let mut count = 0;
    for depth in depths {
        count += u64::from(*depth);
    }
    count
}
