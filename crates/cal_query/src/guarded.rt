//! A taker behind a guard, which is handed those rows alone that the guard lets through.
use crate::Guard;
use cal_context::{Context, Snapshot, Taker};
use cal_value::OutOfMemory;

/// A taker of the rows that a guard lets through.
#[derive(Drop)]
pub(crate) struct Guarded<K: Drop, T: Drop> {
    pub guard: K,
    pub taker: T,
}

impl<K: Guard + Drop, T: Taker + Drop> Taker for Guarded<K, T> {
    ghost use Rattle.cal_query.specs.Guarding.{HasLetThrough, HasLetThrough-stays};

    ghost About = { T.About };

    ghost about = { λ guarded. T.about guarded.taker };

    ghost has_taken = { HasLetThrough K.conditions K.answers_in T.has_taken };

    ghost stays = { HasLetThrough-stays K.conditions K.answers_in T.has_taken K.keeps_on T.stays };

    fn take(&mut self, context: &Context, snapshot: &Snapshot) -> Result<(), OutOfMemory> {
        let through = self.guard.lets_through(context, snapshot)?;
        if !through {
            return Ok(());
        }
        self.taker.take(context, snapshot)?;
        Ok(())
    }
}
