//! The laws of journals that are printed and read again.
ghost use Rattle.std.specs.Prelude.{ℕ, List};
ghost use Rattle.cal_script.specs.Reading.{Means};
ghost use Rattle.cal_script.specs.declared.journal.Journal.{Journal};
ghost use Rattle.cal_script.specs.declared.script.Script.{Script};
ghost use Rattle.cal_journal.specs.ReadBack.{EndsItsLines, HoldsJournal, IsReadBack, IsReadBehind};

/// The law of printed journals: behind any number of lines, the text of a journal says it, and its
/// marks say where, where its fields hold its numbers, as those of a program do (`print_journal`).
/// Whether the journal is lawful for a script doesn't matter.
pub fn printed_journal_law()
    ensures { (journal : Journal) (before : ℕ) → HoldsJournal journal → IsReadBack before journal }
{}

/// The law of a journal behind its script: bytes that mean a script and end their lines, followed
/// by the text of a journal, mean this script and this journal. So `read_both` gives them.
pub fn journal_behind_script_law()
    ensures { (bytes : List ℕ) (script : Script) (journal : Journal) → Means bytes script
        → EndsItsLines bytes → HoldsJournal journal → IsReadBehind bytes script journal }
{}
