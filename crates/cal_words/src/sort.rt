ghost use Rattle.std.specs.Prelude.{◌≡◌, ℕ, ◌≤◌, List, length};

use crate::OpRec;
use cal_value::Seq;

/// What records a table holds. Each has at least two words: its parent, and its depth.
pub trait RecSort {
    // Which lists of words are records.
    ghost is_record: { Self → List ℕ → Type 0 };

    // The slot, of so many homes, at which the search for a record begins.
    ghost home_of: { ℕ → List ℕ → ℕ };

    // Whether the seat of a number may publish a record.
    ghost may_publish: { Self → ℕ → List ℕ → Type 0 };

    ghost has_parent: { (sort : Self) (words : List ℕ) → is_record sort words → 2 ≤ length words };
}

/// The nodes of a context tree. Every seat may publish each of them.
#[derive(Clone, Copy, Debug)]
pub struct NodeSort;

impl RecSort for NodeSort {
    ghost use Rattle.cal_words.specs.Records.{IsNode, IsNode-long};
    ghost use Rattle.cal_words.specs.Homes.{node_home};

    ghost is_record = { λ _ words. IsNode words };

    ghost home_of = { node_home };

    ghost may_publish = { λ _ _ _. Unit {0} };

    ghost has_parent = { λ _. IsNode-long };
}

/// These operations of a process history. The seat of number `thread + 1` alone may publish one.
#[derive(Debug, Drop)]
pub struct OpSort {
    pub ops: Seq<OpRec>,
}

impl RecSort for OpSort {
    ghost use Rattle.cal_words.specs.Records.{IsOp, OwnsOp, IsOp-long};

    ghost is_record = { λ sort words. IsOp sort.ops words };

    ghost home_of = { λ _ _. 0 };

    ghost may_publish = { λ _ number words. OwnsOp number words };

    ghost has_parent = { λ sort. IsOp-long sort.ops };
}
