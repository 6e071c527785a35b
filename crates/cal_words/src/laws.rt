ghost use Rattle.std.specs.Prelude.{◌≡◌, ℕ};
ghost use Rattle.cal_value.specs.declared.variant.Variant.{Variant};
ghost use Rattle.cal_words.specs.declared.op.OpRec.{OpRec};
ghost use Rattle.cal_words.specs.Words.{node_words, op_words};
ghost use Rattle.cal_words.specs.Records.{IsValue};

/// Nodes whose words are equal are equal.
pub fn equal_nodes()
    ensures { (p q d e a b : ℕ) (v w : Variant) → IsValue v → IsValue w
        → node_words p d a v ≡ node_words q e b w → (p ≡ q) × (d ≡ e) × (a ≡ b) × (v ≡ w) }
{}

/// Operations whose words are equal are equal.
pub fn equal_ops()
    ensures { (a b : OpRec) → op_words a ≡ op_words b → a ≡ b }
{}
