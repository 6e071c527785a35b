ghost use Rattle.std.specs.Prelude.{◌≡◌, ◌↔◌, ℕ, ◌<◌, List};
ghost use Rattle.cal_once.specs.declared.view.View.{View};
ghost use Rattle.cal_once.specs.declared.view.Plan.{Plan};
ghost use Rattle.cal_once.specs.Views.{Holds, KnowsMore, joined};
ghost use Rattle.cal_once.specs.Sound.{IsSound};

use cal_words::RecSort;

/// What a seat knows of a place, it knows later too, and so does the seat into which it is joined.
pub fn known_for_good<S>()
    ensures later { (v w : View S) (place : ℕ) (words : List ℕ) →
        KnowsMore v w → Holds v place words → Holds w place words }
    ensures first { (v w : View S) (place : ℕ) (words : List ℕ) →
        Holds v place words → Holds (joined v w) place words }
    ensures other { (v w : View S) (place : ℕ) (words : List ℕ) →
        Holds w place words → Holds (joined v w) place words }
{}

/// Two places that a seat knows are one exactly where their records are equal.
pub fn one_place_each<S: RecSort>()
    ensures { (plan : Plan S) (v : View S) (p q : ℕ) (a b : List ℕ) →
        IsSound S.RecSort plan v → p < plan.shape.slots → q < plan.shape.slots →
        Holds v p a → Holds v q b → ((p ≡ q) ↔ (a ≡ b)) }
{}
