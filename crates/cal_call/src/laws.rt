//! The law of a journal that was written.
ghost use Rattle.std.specs.Prelude.{ℕ, Bool, List};
ghost use Rattle.cal_journal.specs.ReadBack.{EndsItsLines};
ghost use Rattle.cal_script.specs.declared.journal.Journal.{Journal};
ghost use Rattle.cal_call.specs.Again.{IsSaidAgain};
ghost use Rattle.cal_call.specs.Inputs.{Makes};
ghost use Rattle.cal_call.specs.Tasks.{ThreadsTask};
ghost use Rattle.cal_call.specs.declared.words.RunText.TheVariants as run_text;

use cal_journal::journal_behind_script_law;

/// The law of a journal that was written: what `journal` wrote, put behind the script, whose lines
/// all end, is an input of which `serial` makes just the text that `replay` makes where its run
/// leaves this journal.
pub fn written_journal_law()
    ensures { (script written : List ℕ) (real : Bool) (journal : Journal) → EndsItsLines script
        → Makes (ThreadsTask run_text.Journal real) script written journal
        → IsSaidAgain script written real journal }
{
    journal_behind_script_law();
}
