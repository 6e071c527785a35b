ghost use Rattle.std.specs.Prelude.{◌≡◌, ◌+◌, ℕ, List, false, if◌then◌else◌, true};
ghost use Rattle.cal_process.specs.declared.common.Common.{Common};
ghost use Rattle.cal_run.specs.Lines.{is_process_line};
ghost use Rattle.cal_run.specs.Steps.{ThreadState, changed, found_reply, is_accepted, state_after};
ghost use Rattle.cal_script.specs.declared.journal.LineNote.{LineNote};
ghost use Rattle.cal_script.specs.declared.journal.Placed.{Placed};
ghost use Rattle.cal_script.specs.declared.script.Line.{Line};
ghost use Rattle.cal_script.specs.declared.script.Script.{Script};
ghost use Rattle.cal_thread.specs.Threads.{IsThread};
ghost use Rattle.cal_thread.specs.declared.thread.Thread.{Thread};
ghost use Rattle.cal_words.specs.declared.op.OpRec.{OpRec};

/// The law of a line that is done: a thread behind so many lines is one behind one line more, which
/// places nothing.
pub fn line_done_law()
    ensures { (common : Common) (t : Thread) (done : ℕ) (h : List OpRec) (state : ThreadState)
        → IsThread common t done h state → IsThread common t (done + 1) h state }
{}

/// The law of states: a process line leaves its thread's state, and so does a refused line; behind
/// an accepted line of its own the state is changed.
pub fn state_law()
    ensures shared { (script : Script) (history : List Placed) (line : Line) (note : LineNote)
        (state : ThreadState) → is_process_line script line ≡ true
        → state_after script history line note state ≡ state }
    ensures own { (script : Script) (history : List Placed) (line : Line) (note : LineNote)
        (state : ThreadState) → is_process_line script line ≡ false
        → state_after script history line note state
        ≡ (if is_accepted (found_reply script history line note state)
        then changed script history line note state else state) }
{}
