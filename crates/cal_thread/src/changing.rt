ghost use Rattle.std.specs.Prelude.{◌≡◌, ◌+◌, ℕ, List, OnOk, Some, false, true};
ghost use Rattle.cal_board.specs.Readings.{readings_after};
ghost use Rattle.cal_once.specs.Seats.{view};
ghost use Rattle.cal_once.specs.Views.{KnowsMore};
ghost use Rattle.cal_process.specs.Operations.{MayDo, history_of, words_made};
ghost use Rattle.cal_process.specs.Replicas.{AddsWords, IsCommon};
ghost use Rattle.cal_process.specs.Rooms.{HasRoomToDo};
ghost use Rattle.cal_run.specs.Lines.{is_process_line, line_at};
ghost use Rattle.cal_run.specs.Steps.{ThreadState, changed, reading_of};
ghost use Rattle.cal_script.specs.Valid.{IsPlaced};
ghost use Rattle.cal_script.specs.declared.journal.LineNote as notes;
ghost use Rattle.cal_thread.specs.Lines.{HasStateThen, operated, words_of_line};
ghost use Rattle.cal_thread.specs.Threads.{HasSomeState, IsThread};
ghost use Rattle.cal_words.specs.declared.op.OpRec as words;

use crate::Thread;
use cal_board::{AttrRef, Readings};
use cal_process::{Common, perform};
use cal_run::{Operation, attr_ref, clock_after, operation_of};
use cal_script::Line;
use cal_value::OutOfMemory;
use cal_words::OpCode;
use std::alloc::Global;

impl Thread {
    /// Makes the change of the next line, which is accepted, the thread's own, and has this reading:
    /// the thread then stands behind it.
    #[inline(always)]
    pub fn change(
        &mut self,
        alloc: Global,
        common: &Common<'_>,
        line: Line,
        reading: u64,
    ) -> Result<(), OutOfMemory>
        requires common { IsCommon common.now }
        requires thread { (done : ℕ) × (h : List words.OpRec) × (state : ThreadState)
            × IsThread common.now self.old done h state
            × (line_at common.now.script.now self.old.number (done + 1) ≡ Some line) }
        requires own { is_process_line common.now.script.now line ≡ false }
        requires placed { IsPlaced common.now.script.now.attributes common.now.script.now.channels
            common.now.script.now.values line }
        ensures changed { OnOk result ((done : ℕ) (h : List words.OpRec) (state : ThreadState)
            (note : notes.LineNote) → reading_of note ≡ reading
            → line_at common.now.script.now self.old.number (done + 1) ≡ Some line
            → IsThread common.now self.old done h state
            → IsThread common.now self.new (done + 1) h
            (changed common.now.script.now (history_of h) line note state)) }
        ensures process { OnOk result (self.new.process ≡ self.old.process) }
        ensures words { OnOk result (AddsWords common.now self.old.tree self.new.tree
            (words_of_line common.now.script.now line)) }
        ensures learns { OnOk result (KnowsMore (view self.old.tree) (view self.new.tree)) }
        ensures number { OnOk result (self.new.number ≡ self.old.number) }
        ensures timed { OnOk result (self.new.timed ≡ self.old.timed) }
    {
        match operation_of(line) {
            None => {
                self.clock = clock_after(self.clock, line);
                Ok(())
            }
            Some(op) => {
                self.operate(alloc, common, op, reading)?;
                Ok(())
            }
        }
    }

    /// Does to the thread's board what an operation does that the board accepts.
    #[inline(always)]
    fn operate(
        &mut self,
        alloc: Global,
        common: &Common<'_>,
        op: Operation,
        reading: u64,
    ) -> Result<(), OutOfMemory>
        requires common { IsCommon common.now }
        requires thread { HasSomeState common.now self.old }
        requires room { HasRoomToDo common.now (view self.old.tree) op }
        requires may { MayDo common.now.script.now op }
        ensures operated { OnOk result (HasStateThen common.now self.old self.new
            (λ h state. operated common.now.script.now op reading state)) }
        ensures process { OnOk result (self.new.process ≡ self.old.process) }
        ensures words { OnOk result (AddsWords common.now self.old.tree self.new.tree
            (words_made common.now.script.now op)) }
        ensures learns { OnOk result (KnowsMore (view self.old.tree) (view self.new.tree)) }
        ensures number { OnOk result (self.new.number ≡ self.old.number) }
        ensures timed { OnOk result (self.new.timed ≡ self.old.timed) }
    {
        let attr = attr_ref(common.script, op.attr);
        perform(alloc, common, &mut self.tree, op, &mut self.board)?;
        follow_if(self.timed, &mut self.readings, op.code, attr, reading)?;
        Ok(())
    }
}

/// Follows an accepted operation whose line has this reading, where readings are kept.
#[inline(always)]
fn follow_if(
    timed: bool,
    readings: &mut Readings,
    code: OpCode,
    attr: AttrRef,
    reading: u64,
) -> Result<(), OutOfMemory>
    ensures { OnOk result (timed ≡ true
        → readings.new ≡ readings_after readings.old code attr reading) }
{
    if timed {
        readings.follow(code, attr, reading)
    } else {
        Ok(())
    }
}
