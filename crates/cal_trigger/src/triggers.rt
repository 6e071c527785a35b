//! The two triggers that a program has.
ghost use Rattle.std.specs.Prelude.{◌≡◌};
ghost use Rattle.cal_trigger.specs.Named.{in_main, slow as slow_ones};

use crate::Trigger;

/// The triggers that a command line can name.
#[derive(Drop)]
pub struct Triggers {
    /// `function=main`
    pub main: Trigger,
    /// `time.duration.ns>=1000`
    pub slow: Trigger,
    ghost main_is: { main.conds ≡ in_main },
    ghost slow_is: { slow.conds ≡ slow_ones },
}

impl Triggers {
    /// These two triggers. It takes no memory.
    pub fn new(main: Trigger, slow: Trigger) -> Triggers
        requires main { main.conds ≡ in_main }
        requires slow { slow.conds ≡ slow_ones }
    {
        Triggers { main, slow }
    }
}
