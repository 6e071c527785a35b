//! What holds of every valid script, so that the layers above run one without a test.
//!
//! A valid script is one that some bytes mean. `valid_script_law` gives what a run needs of it:
//! each number in a line is a place, each value is of its attribute's kind, and nothing passes a
//! limit. A law costs nothing.
#![tactic(auto)]

mod laws;

pub use laws::valid_script_law;
