ghost use Rattle.std.specs.Prelude.{◌≡◌, ◌+◌, ◌≤◌, List};
ghost use Rattle.std.specs.List.{Contains};
ghost use Rattle.cal_once.specs.Seats.{view};
ghost use Rattle.cal_once.specs.declared.seat.RowSeat as seats;
ghost use Rattle.cal_plog.specs.Answers.{IsAppended};
ghost use Rattle.cal_plog.specs.History.{OwnBefore};
ghost use Rattle.cal_plog.specs.Seats.{ops_of, plan_of, slots_of};
ghost use Rattle.cal_process.specs.Replicas.{HasTaken, IsCommon};
ghost use Rattle.cal_words.specs.declared.op.OpRec as words;
ghost use Rattle.cal_words.specs.declared.sort.NodeSort as sorts;

use crate::{Common, Replica};
use cal_words::OpRec;

impl Replica {
    /// Places an operation of the thread at the end of the history, and gives its place. It isn't
    /// taken in. The history has room for it, so nothing is refused, and it takes no memory.
    pub fn place(&mut self, common: &Common<'_>, op: OpRec) -> u64
        requires common { IsCommon common.now }
        requires taken { (seat : seats.RowSeat sorts.NodeSort) × (h : List words.OpRec)
            × HasTaken common.now seat self.old h }
        requires among { Contains (ops_of common.now.log) op }
        requires thread { (view self.old.log).number ≡ op.thread + 1 }
        requires line { OwnBefore (slots_of common.now.log) (view self.old.log) op.line }
        ensures appended { IsAppended (plan_of common.now.log) op (view self.old.log)
            (view self.new.log) result }
        ensures kept { (seat : seats.RowSeat sorts.NodeSort) (h : List words.OpRec)
            → HasTaken common.now seat self.old h → HasTaken common.now seat self.new h }
        ensures behind { self.old.seen ≤ result }
        ensures board { self.new.board ≡ self.old.board }
        ensures seen { self.new.seen ≡ self.old.seen }
    {
        match common.log.append(&mut self.log, op, self.seen) {
            Ok(place) => place,
            Err(_full) => unreachable!(),
        }
    }
}
