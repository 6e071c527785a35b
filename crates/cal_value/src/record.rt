ghost use Rattle.std.specs.Prelude.{◌≡◌, ◌↔◌, IsTrue, refl};
ghost use Rattle.std.specs.Cmp.{partial_order_from_total};
ghost use Rattle.std.specs.Ordering.{as_partial_cmp, eq_by_cmp};
ghost use Rattle.cal_value.specs.Order.{group_cmp};
ghost use Rattle.cal_value.specs.OrderLaws.{group_exact};
ghost use Rattle.cal_value.specs.ExactOrder.{exact_per, exact_equiv, exact_alike};

use crate::{Entry, OutOfMemory, Seq, TryCopy, same};
use std::alloc::Global;
use std::cmp::Ordering;

/// A snapshot or a group: the paths of its nodes, each from the root, and its immediates.
/// No path is empty; `IsRecord` says so.
#[derive(Debug, Drop, Hash)]
pub struct Rec {
    pub paths: Seq<Seq<Entry>>,
    pub imms: Seq<Entry>,
}

/// The records of a stream: its rows in order, and its globals, which describe the whole run. Of a
/// stream without globals they have no path and no immediate.
#[derive(Debug, Drop)]
pub struct Records {
    pub rows: Seq<Rec>,
    pub globals: Rec,
}

impl TryCopy for Rec {
    fn copy(&self, alloc: Global) -> Result<Self, OutOfMemory> {
        Ok(Rec {
            paths: self.paths.copy(alloc)?,
            imms: self.imms.copy(alloc)?,
        })
    }
}

impl TryCopy for Records {
    fn copy(&self, alloc: Global) -> Result<Self, OutOfMemory> {
        Ok(Records {
            rows: self.rows.copy(alloc)?,
            globals: self.globals.copy(alloc)?,
        })
    }
}

impl PartialEq for Rec {
    ghost eq = { eq_by_cmp group_cmp };

    ghost laws = { exact_per group_exact };

    fn eq(&self, other: &Rec) -> bool
        ensures value { result ≡ eq_by_cmp group_cmp self.now other.now }
        ensures same { IsTrue result ↔ (self.now ≡ other.now) }
    {
        same(&self.paths, &other.paths) && same(&self.imms, &other.imms)
    }
}

impl Eq for Rec {
    ghost laws = { exact_equiv group_exact };
}

#[derived]
impl Hash for Rec {
    ghost respects_eq = { exact_alike group_exact _ };
}

impl PartialOrd for Rec {
    ghost partial_cmp = { as_partial_cmp group_cmp };

    ghost laws = { partial_order_from_total group_exact.total };

    fn partial_cmp(&self, other: &Rec) -> Option<Ordering> {
        Some(self.cmp(other))
    }
}

impl Ord for Rec {
    ghost cmp = { group_cmp };

    ghost total = { group_exact.total };

    ghost matches_partial_cmp = { λ _ _. refl };

    ghost matches_eq = { λ _ _. refl };

    fn cmp(&self, other: &Rec) -> Ordering {
        self.paths
            .cmp(&other.paths)
            .then_with(|| self.imms.cmp(&other.imms))
    }
}
