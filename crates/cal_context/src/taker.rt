ghost use Rattle.std.specs.Prelude.{◌≡◌, [], ◌∷◌, OnOk};
ghost use Rattle.cal_context.specs.Snapshots.{IsIn, meaning};
ghost use Rattle.cal_context.specs.Taking.{TakesMore};
ghost use Rattle.cal_context.specs.Tree.{Grows};

use crate::{Context, Snapshot, expand};
use cal_value::{OutOfMemory, Rec, Seq};
use std::alloc::Global;
use std::marker::Model;

/// Whoever takes snapshots: a writer, a fold, or plain records. After an `Err` nothing is promised
/// of the taker.
///
/// What it takes them for, as a fold its query, stays as it is.
pub trait Taker {
    ghost use Rattle.std.specs.Prelude.{List};
    ghost use Rattle.cal_value.specs.declared.record.Rec.{Rec};
    ghost use Rattle.cal_context.specs.Tree.{Tree};

    // what it takes records for
    ghost About: { Type 0 } = { Unit {0} };

    ghost about: { Self → About };

    // whether it has taken these records so far, from a context as it stands
    ghost has_taken: { Self → Tree → List Rec → Type 0 };

    /// Takes the record that a snapshot means in a context.
    fn take(&mut self, context: &Context, snapshot: &Snapshot) -> Result<(), OutOfMemory>
        requires { IsIn context.now snapshot.now }
        ensures taken { OnOk result (TakesMore
            (has_taken self.old context.now)
            (has_taken self.new context.now)
            (meaning context.now snapshot.now ∷ [])) }
        ensures about { OnOk result (about self.new ≡ about self.old) };

    // what it has taken stays so while the context grows
    ghost stays: { (taker : Self) (old new : Tree) (rs : List Rec)
        → has_taken taker old rs → Grows old new → has_taken taker new rs };
}

/// The simplest taker: it keeps each record with entries of its own.
#[derive(Drop)]
pub struct Taken {
    alloc: Global,
    rows: Seq<Rec>,
}

impl Model for Taken {
    ghost use Rattle.std.specs.Prelude.{List};
    ghost use Rattle.cal_value.specs.declared.record.Rec.{Rec};

    ghost Value = { List Rec };

    ghost view = { λ t. t.rows };
}

impl Taken {
    /// No record. It takes no memory.
    pub fn new(alloc: Global) -> Self
        ensures { result ≡ [] }
    {
        Taken {
            alloc,
            rows: Seq::new(alloc),
        }
    }

    /// The records that it has taken, in order.
    pub fn into_rows(self) -> Seq<Rec>
        ensures { result ≡ self }
    {
        self.rows
    }
}

impl Taker for Taken {
    ghost about = { λ _. tt };

    ghost has_taken = { λ taken _ rs. taken ≡ rs };

    ghost stays = { λ taken old new rs is grows. is };

    fn take(&mut self, context: &Context, snapshot: &Snapshot) -> Result<(), OutOfMemory> {
        self.rows.push(expand(self.alloc, context, snapshot)?)
    }
}
