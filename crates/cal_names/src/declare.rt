//! Declaring a name.
ghost use Rattle.std.specs.Prelude.{◌≡◌, ◌⊎◌, ℕ, OnErr};
ghost use Rattle.cal_once.specs.Seats.{view};
ghost use Rattle.cal_once.specs.Views.{IsLater};
ghost use Rattle.cal_names.specs.Answers.{Answers, PublishesNothing, PublishesOne, Repeats};
ghost use Rattle.cal_names.specs.Answers.{Says, with_content};
ghost use Rattle.cal_names.specs.Declarations.{Declaration, HasNameLength, declared};
ghost use Rattle.cal_names.specs.Kept.{IsKept, IsNameSeat, plan_of};

use crate::read::Content;
use crate::walk::Met;
use crate::{NameRec, NameSeat, NameSort, Names, know_name};
use cal_once::Put;
use cal_value::Kind;
use cal_words::Packed;

/// What the kept declaration of a name is, beside the one that a call made.
#[derive(Clone, Copy, Debug, PartialEq, Eq)]
pub enum Declared {
    /// The same. It stands at this place.
    Same { place: u64 },
    /// Another one, which stands at this place and says this.
    Different { place: u64, kind: Kind, props: u32 },
}

/// Why a declaration wasn't made. Nothing was published.
#[derive(Clone, Copy, Debug, PartialEq, Eq)]
pub enum NamesFull {
    /// Each slot holds another declaration.
    RowsFull,
    /// An empty slot was found, and the seat's arena has no room: it has so many words in use, and
    /// the declaration needs so many.
    ArenaFull { used: u64, need: u64 },
}

impl Names {
    /// Declares a name, of 1 to 200 bytes, with its kind and its properties, and answers the
    /// declaration that is kept. Every call for the name answers that one. It publishes at most its
    /// own declaration; where another one of the name came first meanwhile, its own may stay behind
    /// that one, where no answer shows it. It takes no memory and never waits, and takes time in
    /// the name's length and in the slots that it passes.
    pub fn declare(
        &self,
        seat: &mut NameSeat,
        name: &str,
        kind: Kind,
        props: u32,
    ) -> Result<Declared, NamesFull>
        requires seat { IsNameSeat self.now seat.old }
        requires long { HasNameLength name.now }
        ensures seat { IsNameSeat self.now seat.new }
        ensures later { IsLater (view seat.old) (view seat.new) }
        ensures answer { Answers (plan_of self.now)
            (record { name = name.now; kind = kind; props = props })
            (view seat.old) (view seat.new) result }

        // A kept declaration that the seat knew before is the answer.
        ensures again { (kept : Declaration) (place : ℕ) → kept.name ≡ name.now
            → IsKept (plan_of self.now) (view seat.old) kept place
            → Repeats (record { name = name.now; kind = kind; props = props }) kept place result }

        // What was published.
        ensures published { PublishesNothing (plan_of self.now) (view seat.old) (view seat.new)
            ⊎ PublishesOne (plan_of self.now)
            (record { name = name.now; kind = kind; props = props })
            (view seat.old) (view seat.new) }
        ensures refused { OnErr result
            (PublishesNothing (plan_of self.now) (view seat.old) (view seat.new)) }
    {
        let rec = NameRec { name, kind, props };
        know_name(&rec);
        let home = Packed::<NameSort>::home(&rec, self.shape.homes);
        let from = match self.walk(seat, &rec, home, 0) {
            Met::Kept { place, content } => return Ok(answer(&rec, place, content)),
            Met::Open { distance } => distance,
        };
        match self.rows.put(seat, &rec, from) {
            Put::Placed { .. } => match self.walk(seat, &rec, home, from) {
                Met::Kept { place, content } => Ok(answer(&rec, place, content)),
                Met::Open { .. } => unreachable!(),
            },
            Put::RowsFull => Err(NamesFull::RowsFull),
            Put::ArenaFull { used, need } => Err(NamesFull::ArenaFull { used, need }),
        }
    }
}

/// The answer to a declaration, where this is what the kept one of its name says.
fn answer(rec: &NameRec<'_>, place: u64, content: Content) -> Declared
    ensures { Says (declared rec.now) (with_content rec.now.name.now content) place result }
{
    let Content { kind, props } = content;
    if kind == rec.kind && props == rec.props {
        return Declared::Same { place };
    }
    Declared::Different { place, kind, props }
}
