ghost use Rattle.std.specs.Prelude.{◌≡◌, ◌+◌, [], List};
ghost use Rattle.cal_once.specs.Seats.{view};
ghost use Rattle.cal_plog.specs.Seats.{IsLogSeat};
ghost use Rattle.cal_process.specs.declared.common.Common as commons;
ghost use Rattle.cal_run.specs.Held.{Shows};
ghost use Rattle.cal_hand.specs.Nodes.{NodeAt};
ghost use Rattle.cal_run.specs.Steps.{ThreadState, at_start};
ghost use Rattle.cal_thread.specs.Threads.{HasState, IsThread, sight_of};
ghost use Rattle.cal_tree.specs.Seats.{IsTreeSeat};
ghost use Rattle.cal_words.specs.declared.op.OpRec as words;

use cal_board::{Board, Readings};
use cal_plog::LogSeat;
use cal_process::Replica;
use cal_run::Moment;
use cal_tree::TreeSeat;
use cal_words::NodeId;
use std::alloc::Global;

/// A thread of a run between two lines: its seats, what it knows of the process, its board, and its
/// script clock. The readings by which its values were put there are only kept where it is timed.
#[derive(Drop)]
pub struct Thread {
    pub number: u32,
    pub tree: TreeSeat,
    pub process: Replica,
    pub board: Board<NodeId>,
    pub readings: Readings,
    pub clock: u64,
    pub timed: bool,
}

impl Thread {
    /// Before the first line. It takes no memory.
    pub fn new(alloc: Global, number: u32, timed: bool, tree: TreeSeat, log: LogSeat) -> Self
        requires number { (view log).number ≡ number + 1 }
        requires at_nodes { (view tree).number ≡ number + 1 }
        requires no_nodes { (view tree).used ≡ 0 }
        requires fresh { (view log).published ≡ [] }
        requires unused { (view log).used ≡ 0 }
        ensures number { result.number ≡ number }
        ensures timed { result.timed ≡ timed }
        ensures tree { result.tree ≡ tree }
        ensures log { result.process.log ≡ log }
        ensures thread { (common : commons.Common) → IsTreeSeat common.tree tree
            → IsLogSeat common.log log → IsThread common result 0 [] at_start }
    {
        let process = Replica::new(alloc, log);
        let board = Board::new(alloc);
        let readings = Readings::new(alloc);
        Thread {
            number,
            tree,
            process,
            board,
            readings,
            clock: 0,
            timed,
        }
    }

    /// What a snapshot sees now, with the line's reading and that of the channel's snapshot before.
    #[inline(always)]
    pub fn moment(&self, reading: u64, previous: u64) -> Moment<'_, NodeId>
        ensures shows { (common : commons.Common) (h : List words.OpRec) (state : ThreadState)
            → HasState common self.now h state
            → Shows (NodeAt common.tree self.now.tree) common.script.now result
            (sight_of common.script.now h self.now.process.seen state reading previous) }
    {
        Moment {
            board: &self.board,
            readings: &self.readings,
            process: &self.process.board,
            reading,
            previous,
            timed: self.timed,
        }
    }
}
