ghost use Rattle.std.specs.Prelude.{◌≡◌, ◌↔◌, ℕ, List};
ghost use Rattle.cal_declarations.specs.Reading.{HasFault, Means};
ghost use Rattle.cal_script.specs.declared.kind.ScriptKind.{ScriptKind};
ghost use Rattle.cal_value.specs.declared.attribute.Attribute.{Attribute};

/// The law of meaning: bytes mean declarations exactly where they have no first fault, and no bytes
/// mean two or have two first faults.
pub fn meaning_law()
    ensures said { (bytes : List ℕ) → (((threads : List (List Attribute)) × Means bytes threads)
        ↔ ((line : ℕ) (kind : ScriptKind) → ¬ HasFault bytes line kind)) }
    ensures one_meaning { (bytes : List ℕ) (threads other : List (List Attribute))
        → Means bytes threads → Means bytes other → threads ≡ other }
    ensures one_fault { (bytes : List ℕ) (m n : ℕ) (kind other : ScriptKind)
        → HasFault bytes m kind → HasFault bytes n other → (m ≡ n) × (kind ≡ other) }
{}
