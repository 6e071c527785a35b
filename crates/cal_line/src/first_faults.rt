ghost use Rattle.std.specs.Prelude.{◌≡◌, ◌↔◌, ℕ, List, Result, Ok, Err};
ghost use Rattle.cal_line.specs.FirstFault.{after_lines, IsFirstFault};

/// The law of first faults: lines make something exactly where they have no first fault, a fault of
/// theirs is a first one at some line, and no lines have two.
pub fn first_fault_law<S, K>()
    ensures made { (step : S → List ℕ → Result S K) (start : S) (lines : List (List ℕ))
        → (((made : S) × (after_lines step start lines ≡ Ok made))
        ↔ ((line : ℕ) (kind : K) → ¬ IsFirstFault step start lines line kind)) }
    ensures fault { (step : S → List ℕ → Result S K) (start : S) (lines : List (List ℕ)) (kind : K)
        → ((after_lines step start lines ≡ Err kind)
        ↔ ((line : ℕ) × IsFirstFault step start lines line kind)) }
    ensures one { (step : S → List ℕ → Result S K) (start : S) (lines : List (List ℕ))
        (m n : ℕ) (kind other : K)
        → IsFirstFault step start lines m kind → IsFirstFault step start lines n other
        → (m ≡ n) × (kind ≡ other) }
{}
