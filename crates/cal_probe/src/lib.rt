//! Stored probes: the functions that a program hands to a run, which answer what its channels ask.
//!
//! The layer above uses that a `Probe` keeps its function beside the fact that it may be called
//! wherever a probe is asked, and answers the probe of its kind (`IsProbeOf`); so `ask` always
//! answers, by the formula by which the meaning of a run has it (`probe_value`), and `Probes` stand
//! wherever a `Prober` is wanted. Nothing is promised of what else the functions do, nor of time.
#![tactic(auto)]

mod probe;
mod probes;

pub use cal_script::ProbeKind;
pub use probe::Probe;
pub use probes::Probes;
