ghost use Rattle.std.specs.Prelude.{◌≡◌, ◌+◌, ◌<◌, []};
ghost use Rattle.cal_plog.specs.Seats as history;
ghost use Rattle.cal_run.specs.Steps.{at_start};
ghost use Rattle.cal_thread.specs.Hiring.{HasHired};
ghost use Rattle.cal_thread.specs.Threads.{IsThread};
ghost use Rattle.cal_tree.specs.Seats as nodes;

use crate::Thread;
use cal_plog::LogSeat;
use cal_process::Common;
use cal_tree::TreeSeat;
use std::alloc::Global;

impl Thread {
    /// The thread of this number, before its first line, with seats of its own. The threads before
    /// it have theirs. It takes no memory.
    pub fn hire(
        alloc: Global,
        common: &Common<'_>,
        number: u32,
        timed: bool,
        tree: &mut TreeSeat,
        log: &mut LogSeat,
    ) -> Thread
        requires hired { HasHired common.now tree.old log.old number }
        requires nodes { number + 1 < (nodes.plan_of common.now.tree).shape.arenas }
        requires history { number + 1 < (history.plan_of common.now.log).shape.arenas }
        ensures hired { HasHired common.now tree.new log.new (number + 1) }
        ensures thread { IsThread common.now result 0 [] at_start }
        ensures number { result.number ≡ number }
        ensures timed { result.timed ≡ timed }
    {
        let own_tree = common.tree.split(tree);
        let own_log = common.log.split(log);
        Thread::new(alloc, number, timed, own_tree, own_log)
    }
}
