//! What holds of the snapshots that a channel of a valid script takes, in whatever run.
//!
//! They have the attributes of the script and those that services add, each under a name of its
//! own, and values of their kinds; so they are a trace for which the channel's profile answers
//! (`profiles_law`). The layers above use it of runs by a journal and of runs in threads. Laws
//! cost nothing.
#![tactic(auto)]

mod laws;

pub use laws::{limits_law, names_law, profiles_law, traces_law};
