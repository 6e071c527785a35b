//! A path of a world gets its node.
ghost use Rattle.std.specs.Prelude.{◌≡◌, ◌+◌, ◌<◌, length, IfOk, OnErr, OnOk};
ghost use Rattle.cal_events.specs.Effects.{world_by};
ghost use Rattle.cal_run.specs.Held.{IsKnown};
ghost use Rattle.cal_run.specs.Paths.{paths_of};
ghost use Rattle.cal_script.specs.Valid.{IsRunnable};
ghost use Rattle.cal_steps.specs.Behind.{IsNodeReady};
ghost use Rattle.cal_world.specs.Progress.{reached_by};
ghost use Rattle.cal_world.specs.declared.event.Event.TheVariants as event;

use crate::World;
use crate::node_board::node_board;
use crate::paths::add_newest;
use cal_board::PathBoard;
use cal_script::{Journal, Script};
use cal_value::{Entry, OutOfMemory, Seq};
use cal_world::{Turn, first_count};
use std::alloc::Global;

impl World {
    /// The next path that a line needs gets its node, unless it has one.
    pub(crate) fn node(
        &mut self,
        script: &Script,
        journal: &Journal,
        thread: u32,
        turn: Turn,
    ) -> Result<(), OutOfMemory>
        requires within { thread < length self.old.threads }
        requires reached { thread < length self.old.progress.threads }
        requires room { (reached_by self.old.progress thread).events + 1 < 18446744073709551616 }
        requires runnable { IsRunnable script.now }
        requires ready { IsNodeReady script.now journal.now self.old turn thread }
        ensures ok { OnOk result (self.new
            ≡ world_by script.now journal.now self.old turn (event.Node thread)) }
        ensures err { OnErr result (self.new ≡ self.old) }
    {
        let first = first_count(script, turn);
        let count = self.reached[thread as usize].events() - first;
        let history = self.history.as_slice();
        let board = node_board(self.alloc, script, journal, history, turn, count)?;
        let held = paths_of(self.alloc, script, &board)?;
        add_newest(self.alloc, held.as_slice(), &mut self.paths)?;
        self.reached[thread as usize].move_on();
        Ok(())
    }
}

/// The paths that a board holds.
fn paths_of(
    alloc: Global,
    script: &Script,
    board: &PathBoard,
) -> Result<Seq<Seq<Entry>>, OutOfMemory>
    requires { IsKnown script.now board.now }
    ensures { IfOk result (λ held. held ≡ paths_of script.now board.now) }
{
    let mut held = Seq::new(alloc);
    board.paths(&script.attributes, &mut held)?;
    Ok(held)
}
