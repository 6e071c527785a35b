ghost use Rattle.std.specs.Prelude.{◌≡◌, ℕ};
ghost use Rattle.cal_once.specs.Sound.{IsSound};
ghost use Rattle.cal_once.specs.Views.{KnowsMore, joined, new_seat};
ghost use Rattle.cal_once.specs.declared.view.Plan.{Plan};
ghost use Rattle.cal_once.specs.declared.view.View.{View};
ghost use Rattle.cal_names.specs.Declarations.{Declaration};
ghost use Rattle.cal_names.specs.Kept.{IsKept, name_law};
ghost use Rattle.cal_names.specs.declared.record.NameSort.{NameSort};

/// The kept declaration of a name, once a seat knows it, stays what it is and where it is; a seat
/// that is split off knows it, and so does the first seat after a join.
pub fn kept_for_good()
    ensures later { (plan : Plan NameSort) (v w : View NameSort) (d : Declaration) (place : ℕ) →
        KnowsMore v w → IsKept plan v d place → IsKept plan w d place }
    ensures new { (plan : Plan NameSort) (v : View NameSort) (d : Declaration) (place : ℕ) →
        IsKept plan v d place → IsKept plan (new_seat v) d place }
    ensures first { (plan : Plan NameSort) (v w : View NameSort) (d : Declaration) (place : ℕ) →
        IsKept plan v d place → IsKept plan (joined v w) d place }
    ensures other { (plan : Plan NameSort) (v w : View NameSort) (d : Declaration) (place : ℕ) →
        IsKept plan w d place → IsKept plan (joined v w) d place }
{}

/// A name has one kept declaration, at one place, whoever declared it: two that a seat knows are
/// one.
pub fn one_declaration_each()
    ensures { (plan : Plan NameSort) (v : View NameSort) (a b : Declaration) (p q : ℕ) →
        IsSound name_law plan v → a.name ≡ b.name → IsKept plan v a p → IsKept plan v b q →
        (p ≡ q) × (a ≡ b) }
{}
