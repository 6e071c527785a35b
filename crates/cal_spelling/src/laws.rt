ghost use Rattle.std.specs.Prelude.{◌↔◌};
ghost use Rattle.cal_script.specs.declared.script.Script.{Script};
ghost use Rattle.cal_script.specs.Reading.{IsValidScript, Means};
ghost use Rattle.cal_spelling.specs.CanonicalText.{canonical_text};

/// The law of canonical texts: a script is valid exactly where its canonical text means it.
pub fn canonical_text_law()
    ensures { (script : Script) → (IsValidScript script ↔ Means (canonical_text script) script) }
{}
