//! A condition asked of one entry.
ghost use Rattle.std.specs.Prelude.{◌≡◌, IfOk};
ghost use Rattle.cal_trigger.specs.Deciding.{speaks_of};

use crate::decider::Decider;
use crate::question::Question;
use cal_value::{Attribute, OutOfMemory, Variant};
use std::alloc::Global;

/// Whoever decides a condition, with a record to ask about.
#[derive(Drop)]
pub(crate) struct Asker<D: Drop> {
    pub decider: D,
    pub question: Question,
}

impl<D: Decider + Drop> Asker<D> {
    /// It takes no memory.
    pub fn new(alloc: Global, decider: D) -> Asker<D> {
        Asker {
            decider,
            question: Question::new(alloc),
        }
    }

    /// Whether an entry has the condition's name and passes its test, which whoever decides the
    /// condition answers on the record of that entry alone.
    pub fn ask(&mut self, attribute: &Attribute, value: &Variant) -> Result<bool, OutOfMemory>
        ensures { IfOk result (λ speaks. speaks
            ≡ speaks_of D.condition (record { attr = attribute.now; value = value.now })) }
    {
        self.question.write(attribute, value)?;
        Ok(self.decider.holds(&self.question.rec))
    }
}
