use crate::{Table, TableShape};
use cal_book::{Merge, Merging};
use cal_value::OutOfMemory;
use std::alloc::Global;

impl Merging<TableShape> for Table {
    ghost use Rattle.std.specs.Prelude.{◌≡◌, refl};
    ghost use Rattle.std.proofs.Common.{sym, ◌∙◌};
    ghost use Rattle.cal_table.specs.Tables.{Same, empty_table, merged_tables};
    ghost use Rattle.cal_table.specs.TableLaws.{Same-refl, Same-sym, Same-trans};
    ghost use Rattle.cal_table.specs.TableLaws.{Same-merged_tables, merged_tables-empty};
    ghost use Rattle.cal_table.specs.TableLaws.{merged_tables-assoc, merged_tables-comm};

    ghost made_for = { λ shape table. table.shape ≡ shape };

    ghost size = { λ table. table.snapshots };

    ghost empty = { empty_table };

    ghost merged = { merged_tables };

    ghost same = { Same };

    ghost same_refl = { Same-refl };

    ghost same_sym = { Same-sym };

    ghost same_trans = { Same-trans };

    ghost same_made = { λ shape a b one made. sym one.shape ∙ made };

    ghost same_size = { λ a b one. one.snapshots };

    ghost same_merged = { Same-merged_tables };

    ghost empty_made = { λ shape. refl };

    ghost empty_size = { λ shape. refl };

    ghost merged_made = { λ shape a b one two. one };

    ghost merged_size = { λ a b. refl };

    ghost unit = { merged_tables-empty };

    ghost commutative = { merged_tables-comm };

    ghost associative = { merged_tables-assoc };
}

impl Merge<TableShape> for Table {
    fn start(alloc: Global, shape: &TableShape) -> Result<Table, OutOfMemory> {
        Table::new(alloc, shape)
    }

    fn merge(&mut self, other: Table) -> Result<(), Table> {
        self.merge(other)
    }

    fn snapshots(&self) -> u64 {
        self.snapshots()
    }
}
