//! Large valid scripts from three numbers, as text and as plain data: what one wants to try a
//! program on.
//!
//! The layer above uses that `generate` gives exactly the text of its seed and sizes (`generated`),
//! so the same numbers give the same text on every machine, that `generate_script` gives the script
//! which this text means and doesn't make the text, and that each such text is a valid script
//! (`generated_script_law`). Nothing is promised of how well the draws are mixed.
#![tactic(auto)]

mod draws;
mod generating;
mod laws;
mod making;
mod moves;
mod opened;

pub use draws::Draws;
pub use generating::{generate, header};
pub use laws::generated_script_law;
pub use making::generate_script;
pub use moves::Move;
