ghost use Rattle.std.specs.Prelude.{◌≡◌, ◌+◌, ℕ, true, List, IfOk, OnOk};
ghost use Rattle.std.specs.List.{Contains};
ghost use Rattle.cal_once.specs.Seats.{view};
ghost use Rattle.cal_once.specs.Views.{KnowsMore};
ghost use Rattle.cal_plog.specs.Seats.{ops_of};
ghost use Rattle.cal_process.specs.Replicas.{IsCommon};
ghost use Rattle.cal_run.specs.Lines.{is_process_line};
ghost use Rattle.cal_run.specs.Steps.{ThreadState};
ghost use Rattle.cal_thread.specs.Lines.{MeetsShared, TakesOwn};
ghost use Rattle.cal_thread.specs.Threads.{HasPlaced, IsThread};
ghost use Rattle.cal_words.specs.declared.op.OpRec as words;

use crate::Thread;
use cal_process::Common;
use cal_run::reply_to_line;
use cal_script::{Line, Reply};
use cal_value::OutOfMemory;
use cal_words::OpRec;
use std::alloc::Global;

impl Thread {
    /// Places a process line in the history, takes in what stands before its place, and answers it.
    /// `take_own` ends the line.
    pub fn place(
        &mut self,
        alloc: Global,
        common: &Common<'_>,
        line: Line,
        op: OpRec,
    ) -> Result<Option<Reply>, OutOfMemory>
        requires common { IsCommon common.now }
        requires thread { (done : ℕ) × (h : List words.OpRec) × (state : ThreadState)
            × IsThread common.now self.old done h state × (op.line ≡ done + 1) }
        requires shared { is_process_line common.now.script.now line ≡ true }
        requires among { Contains (ops_of common.now.log) op }
        requires own { op.thread ≡ self.old.number }
        ensures meets { IfOk result (λ reply. (done : ℕ) (h : List words.OpRec)
            (state : ThreadState) → IsThread common.now self.old done h state
            → op.line ≡ done + 1
            → MeetsShared common.now self.old self.new line op reply h state) }
        ensures learns { OnOk result (KnowsMore (view self.old.tree) (view self.new.tree)) }
        ensures number { OnOk result (self.new.number ≡ self.old.number) }
        ensures timed { OnOk result (self.new.timed ≡ self.old.timed) }
    {
        let at = self.process.place(common, op);
        self.process.take_to(alloc, common, &mut self.tree, at)?;
        Ok(reply_to_line(common.script, line, &self.process.board))
    }

    /// Takes in the operation that was placed, which ends its line.
    pub fn take_own(&mut self, alloc: Global, common: &Common<'_>) -> Result<(), OutOfMemory>
        requires common { IsCommon common.now }
        requires placed { (op : words.OpRec) × (h : List words.OpRec) × (state : ThreadState)
            × HasPlaced common.now self.old op h state }
        ensures takes { OnOk result ((op : words.OpRec) (h : List words.OpRec)
            (state : ThreadState) → HasPlaced common.now self.old op h state
            → TakesOwn common.now self.old self.new op h state) }
        ensures learns { OnOk result (KnowsMore (view self.old.tree) (view self.new.tree)) }
        ensures number { OnOk result (self.new.number ≡ self.old.number) }
        ensures timed { OnOk result (self.new.timed ≡ self.old.timed) }
    {
        let _own = self.process.take_next(alloc, common, &mut self.tree)?;
        Ok(())
    }
}
