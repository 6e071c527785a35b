ghost use Rattle.std.specs.Prelude.{◌≡◌, ◌↔◌, ℕ, List};
ghost use Rattle.cal_script.specs.declared.kind.ScriptKind.{ScriptKind};
ghost use Rattle.cal_script.specs.declared.script.Script.{Script};
ghost use Rattle.cal_script.specs.Faults.{HasFault};
ghost use Rattle.cal_script.specs.Reading.{Means};

/// The law of meaning: bytes mean a script exactly where they have no first fault, and no bytes mean
/// two scripts or have two first faults.
pub fn meaning_law()
    ensures said { (bytes : List ℕ) → (((script : Script) × Means bytes script)
        ↔ ((line : ℕ) (kind : ScriptKind) → ¬ HasFault bytes line kind)) }
    ensures one_script { (bytes : List ℕ) (script other : Script)
        → Means bytes script → Means bytes other → script ≡ other }
    ensures one_fault { (bytes : List ℕ) (m n : ℕ) (kind other : ScriptKind)
        → HasFault bytes m kind → HasFault bytes n other → (m ≡ n) × (kind ≡ other) }
{}
