ghost use Rattle.std.specs.Prelude.{◌≡◌, ℕ};
ghost use Rattle.cal_journal.specs.declared.kind.JournalKind.{JournalKind};
ghost use Rattle.cal_lawful.specs.Broken.{IsFirstBroken, IsLawfulText};
ghost use Rattle.cal_script.specs.declared.journal.JournalText.{JournalText};
ghost use Rattle.cal_script.specs.declared.script.Script.{Script};

/// The law of the first broken rule: one thing is said of a journal. A lawful one breaks no rule, and
/// another breaks one rule first, on one line.
pub fn first_broken_law()
    ensures lawful { (script : Script) (text : JournalText) (rule : JournalKind) (line : ℕ)
        → IsLawfulText script text → ¬ IsFirstBroken script text rule line }
    ensures one { (script : Script) (text : JournalText) (rule other : JournalKind) (line place : ℕ)
        → IsFirstBroken script text rule line → IsFirstBroken script text other place
        → (rule ≡ other) × (line ≡ place) }
{}
