//! The world behind the whole schedule.
ghost use Rattle.std.specs.Prelude.{IfOk};
ghost use Rattle.cal_events.specs.Keeping.{EndsJournal};
ghost use Rattle.cal_run.specs.Lawful.{Lawful};
ghost use Rattle.cal_script.specs.Valid.{IsRunnable};

use crate::World;
use cal_script::{Journal, Script};
use cal_value::OutOfMemory;
use cal_world::schedule;
use std::alloc::Global;

impl World {
    /// The world behind all events of a lawful journal, in the order of `schedule`.
    pub fn scheduled(
        alloc: Global,
        script: &Script,
        journal: &Journal,
    ) -> Result<World, OutOfMemory>
        requires runnable { IsRunnable script.now }
        requires lawful { Lawful script.now journal.now }
        ensures { IfOk result (EndsJournal script.now journal.now) }
    {
        let events = schedule(alloc, script, journal)?;
        let mut world = World::new(alloc, script, journal)?;
        for event in events.as_slice() {
            world.step(script, journal, event)?;
        }
        Ok(world)
    }
}
