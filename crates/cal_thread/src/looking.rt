ghost use Rattle.std.specs.Prelude.{◌≡◌, ℕ, false, List, IfOk, OnOk};
ghost use Rattle.cal_once.specs.Seats.{view};
ghost use Rattle.cal_once.specs.Views.{KnowsMore};
ghost use Rattle.cal_process.specs.Replicas.{IsCommon};
ghost use Rattle.cal_run.specs.Lines.{is_process_line};
ghost use Rattle.cal_run.specs.Steps.{ThreadState};
ghost use Rattle.cal_thread.specs.Lines.{LooksIf, MeetsOwn};
ghost use Rattle.cal_thread.specs.Threads.{IsSomeThread, IsThread};
ghost use Rattle.cal_words.specs.declared.op.OpRec as words;

use crate::Thread;
use cal_process::Common;
use cal_run::{is_accepted, is_taken, reply_to_line};
use cal_script::{Line, Reply};
use cal_value::OutOfMemory;
use std::alloc::Global;

/// What a line met: its reply, if the script knows it, and whether it is accepted.
#[derive(Clone, Copy, Debug, PartialEq, Eq)]
pub struct Met {
    pub reply: Option<Reply>,
    pub accepted: bool,
}

impl Thread {
    /// Answers a line that is the thread's own, and looks at the history where it takes a snapshot.
    #[inline(always)]
    pub fn look(
        &mut self,
        alloc: Global,
        common: &Common<'_>,
        line: Line,
    ) -> Result<Met, OutOfMemory>
        requires common { IsCommon common.now }
        requires thread { IsSomeThread common.now self.old }
        requires own { is_process_line common.now.script.now line ≡ false }
        ensures meets { IfOk result (λ met. (done : ℕ) (h : List words.OpRec) (state : ThreadState)
            → IsThread common.now self.old done h state
            → MeetsOwn common.now self.old self.new line met done h state) }
        ensures learns { OnOk result (KnowsMore (view self.old.tree) (view self.new.tree)) }
        ensures number { OnOk result (self.new.number ≡ self.old.number) }
        ensures timed { OnOk result (self.new.timed ≡ self.old.timed) }
    {
        let reply = reply_to_line(common.script, line, &self.board);
        let accepted = is_accepted(reply);
        let looks = is_taken(common.script, line, accepted);
        self.look_if(alloc, common, looks)?;
        Ok(Met { reply, accepted })
    }

    /// Takes in the history up to a slot that is found empty, if the line looks.
    #[inline(always)]
    fn look_if(
        &mut self,
        alloc: Global,
        common: &Common<'_>,
        looks: bool,
    ) -> Result<(), OutOfMemory>
        requires common { IsCommon common.now }
        requires thread { IsSomeThread common.now self.old }
        ensures looks { OnOk result ((done : ℕ) (h : List words.OpRec) (state : ThreadState)
            → IsThread common.now self.old done h state
            → LooksIf common.now self.old self.new done h state looks) }
        ensures learns { OnOk result (KnowsMore (view self.old.tree) (view self.new.tree)) }
        ensures number { OnOk result (self.new.number ≡ self.old.number) }
        ensures timed { OnOk result (self.new.timed ≡ self.old.timed) }
    {
        if looks {
            self.process.take_all(alloc, common, &mut self.tree)?;
        }
        Ok(())
    }
}
