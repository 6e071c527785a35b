ghost use Rattle.std.specs.Prelude.{◌≡◌, ◌≤◌, List, OnOk};
ghost use Rattle.cal_once.specs.Seats.{view};
ghost use Rattle.cal_once.specs.Views.{IsLater};
ghost use Rattle.cal_plog.specs.History.{KnowsBelow};
ghost use Rattle.cal_plog.specs.Seats.{slots_of};
ghost use Rattle.cal_process.specs.Replicas.{HasTaken, IsCommon};
ghost use Rattle.cal_process.specs.Takings.{KeepsLooks, MayTake, TakesAll, TakesMore};
ghost use Rattle.cal_words.specs.declared.op.OpRec as words;

use crate::{Common, Replica};
use cal_tree::TreeSeat;
use cal_value::OutOfMemory;
use std::alloc::Global;

impl Replica {
    /// Takes in the history up to a place, below which its seat knows all places.
    pub fn take_to(
        &mut self,
        alloc: Global,
        common: &Common<'_>,
        seat: &mut TreeSeat,
        place: u64,
    ) -> Result<(), OutOfMemory>
        requires common { IsCommon common.now }
        requires taken { (h : List words.OpRec) × MayTake common.now seat.old self.old h }
        requires known { KnowsBelow (slots_of common.now.log) (view self.old.log) place }
        requires within { place ≤ slots_of common.now.log }
        requires behind { self.old.seen ≤ place }
        ensures takes { OnOk result ((h : List words.OpRec)
            → HasTaken common.now seat.old self.old h
            → TakesMore common.now seat.old seat.new self.old self.new h) }
        ensures seen { OnOk result (self.new.seen ≡ place) }
        ensures looks { OnOk result (KeepsLooks self.old self.new) }
        ensures later { OnOk result (IsLater (view seat.old) (view seat.new)) }
    {
        for _next in self.seen..place {
            let _more = self.take_next(alloc, common, seat)?;
        }
        Ok(())
    }

    /// Takes in the history up to a slot that it finds empty.
    pub fn take_all(
        &mut self,
        alloc: Global,
        common: &Common<'_>,
        seat: &mut TreeSeat,
    ) -> Result<(), OutOfMemory>
        requires common { IsCommon common.now }
        requires taken { (h : List words.OpRec) × MayTake common.now seat.old self.old h }
        ensures takes { OnOk result ((h : List words.OpRec)
            → HasTaken common.now seat.old self.old h
            → TakesAll common.now seat.old seat.new self.old self.new h) }
        ensures later { OnOk result (IsLater (view seat.old) (view seat.new)) }
    {
        while self.take_next(alloc, common, seat)? {}
        Ok(())
    }
}
