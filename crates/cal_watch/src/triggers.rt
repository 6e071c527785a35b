//! The triggers of a program, each as whoever decides its condition.
use crate::decider::Decider;
use cal_trigger::Triggers;
use cal_value::{Attribute, Rec};

/// The trigger `main` of these.
#[derive(Drop)]
pub(crate) struct MainTrigger<'a> {
    pub triggers: &'a Triggers,
}

/// The trigger `slow` of these.
#[derive(Drop)]
pub(crate) struct SlowTrigger<'a> {
    pub triggers: &'a Triggers,
}

impl<'a> Decider for MainTrigger<'a> {
    ghost use Rattle.std.specs.Prelude.{refl};
    ghost use Rattle.cal_trigger.specs.Named.{main_condition};

    ghost condition = { main_condition };

    ghost plain = { refl };

    fn is_of(&self, attribute: &Attribute) -> bool {
        attribute.name == self.triggers.main.conds().as_slice()[0].name
    }

    fn holds(&self, rec: &Rec) -> bool {
        self.triggers.main.holds(rec)
    }
}

impl<'a> Decider for SlowTrigger<'a> {
    ghost use Rattle.std.specs.Prelude.{refl};
    ghost use Rattle.cal_trigger.specs.Named.{slow_condition};

    ghost condition = { slow_condition };

    ghost plain = { refl };

    fn is_of(&self, attribute: &Attribute) -> bool {
        attribute.name == self.triggers.slow.conds().as_slice()[0].name
    }

    fn holds(&self, rec: &Rec) -> bool {
        self.triggers.slow.holds(rec)
    }
}
