//! A walk over the slots from a name's home on, to the first declaration of the name.
ghost use Rattle.std.specs.Prelude.{◌≡◌, ◌%◌, ◌≤◌};
ghost use Rattle.cal_once.specs.Seats.{view};
ghost use Rattle.cal_once.specs.Views.{IsLater};
ghost use Rattle.cal_names.specs.Answers.{Looks, Meets};
ghost use Rattle.cal_names.specs.Declarations.{HasNameLength, name_hash};
ghost use Rattle.cal_names.specs.Kept.{IsNameSeat, PassesOtherNames, plan_of};
ghost use Rattle.cal_words.specs.Records.{IsText};

use crate::read::Content;
use crate::{NameRec, NameSeat, Names};

/// What a walk met.
#[derive(Clone, Copy)]
pub enum Met {
    /// The kept declaration of the name.
    Kept { place: u64, content: Content },
    /// At this distance from the name's home an empty slot, or the end of the slots.
    Open { distance: u64 },
}

impl Names {
    /// Walks from the name's home on to the first declaration of the name, or to the first empty
    /// slot. The walk begins at the distance `from`.
    pub(crate) fn walk(&self, seat: &mut NameSeat, rec: &NameRec<'_>, home: u64, from: u64) -> Met
        requires seat { IsNameSeat self.now seat.old }
        requires text { IsText rec.now.name.now }
        requires long { HasNameLength rec.now.name.now }
        requires home { home ≡ name_hash rec.now.name.now % (plan_of self.now).shape.homes }
        requires from { from ≤ (plan_of self.now).shape.slots }
        requires before { PassesOtherNames (plan_of self.now) (view seat.old) rec.now.name.now
            from }
        ensures seat { IsNameSeat self.now seat.new }
        ensures later { IsLater (view seat.old) (view seat.new) }
        ensures looks { Looks (plan_of self.now) (view seat.old) (view seat.new) }
        ensures meets { Meets (plan_of self.now) rec.now.name.now
            (view seat.old) (view seat.new) result }
    {
        let slots = self.shape.slots;
        for distance in from..slots {
            let place = (home + distance) % slots;
            if !self.rows.look(seat, place) {
                return Met::Open { distance };
            }
            if let Some(content) = self.content_of(seat, place, rec) {
                return Met::Kept { place, content };
            }
        }
        Met::Open { distance: slots }
    }
}
