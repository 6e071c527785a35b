ghost use Rattle.std.specs.Prelude.{◌≡◌, ◌↔◌, ◌+◌, ◌≤◌, ◌^◌, ℕ, List, [], None, Some};
ghost use Rattle.cal_agg.specs.declared.num.Num.{Num as Number};
ghost use Rattle.cal_agg.specs.declared.row.AggRow.{AggRow as ARow};
ghost use Rattle.cal_agg.specs.Ends.{IsAbsentSum, IsGreatest, IsLeast};
ghost use Rattle.cal_agg.specs.Results.{greatest_of, least_of, sum_of};
ghost use Rattle.cal_agg.specs.RowLimits.{RowIsWithin};
ghost use Rattle.cal_agg.specs.Rows.{RowHasRoom, merged_row};

/// The least of some numbers is one of them, and none is below it; so with the greatest.
pub fn ends_are_ends()
    ensures least { (ns : List Number) (end : Number) → least_of ns ≡ Some end → IsLeast ns end }
    ensures greatest { (ns : List Number) (end : Number) → greatest_of ns ≡ Some end → IsGreatest ns end }
{}

/// An end is absent exactly where nothing contributes, and a sum also where it is too large.
pub fn absent_where_nothing_contributes()
    ensures least { (ns : List Number) → (least_of ns ≡ None) ↔ (ns ≡ []) }
    ensures greatest { (ns : List Number) → (greatest_of ns ≡ None) ↔ (ns ≡ []) }
    ensures sum { (ns : List Number) → (sum_of ns ≡ None) ↔ IsAbsentSum ns }
{}

/// Rows may be merged in any order, whatever they hold.
pub fn rows_merge_in_any_order()
    ensures commutative { (a b : ARow) → merged_row a b ≡ merged_row b a }
    ensures associative { (a b c : ARow)
        → merged_row (merged_row a b) c ≡ merged_row a (merged_row b c) }
{}

/// The rows of some snapshots stay within the bound of so many while they are merged, and 2^62 of
/// them are within a row's limits.
pub fn merged_rows_stay_within()
    ensures merged { (m n : ℕ) (a b : ARow) → RowIsWithin m a → RowIsWithin n b
        → RowIsWithin (m + n) (merged_row a b) }
    ensures room { (n : ℕ) (a : ARow) → n ≤ 2 ^ 62 → RowIsWithin n a → RowHasRoom a }
{}
