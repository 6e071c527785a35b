ghost use Rattle.std.specs.Prelude.{◌≡◌, ℕ, Some, None, true, false};
ghost use Rattle.cal_process.specs.Operations.{IsOpOf, op_of_line};
ghost use Rattle.cal_run.specs.Lines.{is_process_line, line_at};
ghost use Rattle.cal_script.specs.declared.script.Line.{Line};
ghost use Rattle.cal_script.specs.declared.script.Script.{Script};
ghost use Rattle.cal_words.specs.declared.op.OpRec.{OpRec};

/// The law of process lines: these alone have operations, and each has that of its thread and its
/// number.
pub fn process_line_law()
    ensures own { (script : Script) (thread number : ℕ) (line : Line)
        → op_of_line script thread number line ≡ None → is_process_line script line ≡ false }
    ensures shared { (script : Script) (thread number : ℕ) (line : Line) (op : OpRec)
        → op_of_line script thread number line ≡ Some op
        → (is_process_line script line ≡ true) × (op.thread ≡ thread) × (op.line ≡ number) }
    ensures there { (script : Script) (thread number : ℕ) (line : Line) (op : OpRec)
        → line_at script thread number ≡ Some line
        → op_of_line script thread number line ≡ Some op → IsOpOf script op }
{}
