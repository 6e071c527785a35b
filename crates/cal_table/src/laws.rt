ghost use Rattle.std.specs.Prelude.{◌≡◌, Bool, List, [], ◌∷◌, ◌++◌};
ghost use Rattle.cal_snap.specs.declared.numbered.NumberedSnap.{NumberedSnap as ASnap};
ghost use Rattle.cal_table.specs.declared.key.TableKey.{TableKey as AKey};
ghost use Rattle.cal_table.specs.declared.shape.TableShape.{TableShape as AShape};
ghost use Rattle.cal_table.specs.Looks.{IsLookedAt};
ghost use Rattle.cal_table.specs.Rows.{tally};
ghost use Rattle.cal_table.specs.Snapshots.{StandsFor, held_of_keys, table_of};
ghost use Rattle.cal_table.specs.Tables.{Same, TableValue, merged_tables};

/// The rows of a table that stands for snapshots hold, for whichever keys are asked for, what the
/// snapshots come to that have one of these keys.
pub fn tables_hold_snapshots()
    ensures { (snaps : List ASnap) (table : TableValue) → StandsFor snaps table
        → (asked : AKey → Bool)
        → tally asked table.rows ≡ held_of_keys table.shape asked snaps }
{}

/// A merge of two tables stands for the snapshots of both.
pub fn merges_stand_for_both()
    ensures { (snaps more : List ASnap) (one other merged : TableValue) → StandsFor snaps one
        → StandsFor more other → other.shape ≡ one.shape
        → Same merged (merged_tables one other) → StandsFor (snaps ++ more) merged }
{}

/// A snapshot comes to what its entries alone come to that a table looks at.
pub fn tables_look_at_few()
    ensures { (shape : AShape) (snap looked : ASnap) → IsLookedAt shape snap looked
        → table_of shape (looked ∷ []) ≡ table_of shape (snap ∷ []) }
{}
