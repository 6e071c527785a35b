ghost use Rattle.std.specs.Prelude.{◌≡◌, [], List, slice_get, slice_index_or, IfOk};
ghost use Rattle.std.specs.Option.{option_copied};
ghost use Rattle.cal_value.specs.declared.record.Rec.{Rec as ARecord};
ghost use Rattle.cal_engine.specs.Making.{AreOthers, below_of};
ghost use Rattle.cal_engine.specs.Numbered.{AreGroups};
ghost use Rattle.cal_parts.specs.Parts.{Gathered};

use crate::below::parts_below_keys;
use crate::finishing::{no_parts, some_beyond, some_inclusive};
use crate::groups::total;
use crate::numbered::NumberedGroups;
use cal_context::Context;
use cal_parts::Part;
use cal_ql::Query;
use cal_value::{OutOfMemory, Seq};
use std::alloc::Global;

/// What is kept of other records than a group's, where some kernel looks at them: of all, and for
/// each group of those at or below it.
#[derive(Drop)]
pub(crate) struct OtherParts {
    all: Seq<Part>,
    inclusive: bool,
    below: Vec<Seq<Part>>,
}

impl OtherParts {
    /// The parts for groups whose keys lie in a context.
    pub(crate) fn of(
        alloc: Global,
        query: &Query,
        room: &Context,
        groups: &NumberedGroups,
    ) -> Result<OtherParts, OutOfMemory>
        ensures { IfOk result (λ others. (rs : List ARecord)
            → AreGroups room.now query.now rs groups.now → AreOthers room.now query.now rs
            groups.now others.all (below_of others groups.now.parts)) }
    {
        let aggs = query.aggs.as_slice();
        let none = no_parts(alloc, aggs)?;
        let own = groups.parts();
        if !some_beyond(aggs) {
            return Ok(OtherParts {
                all: none,
                inclusive: false,
                below: Vec::new(alloc),
            });
        }
        let all = total(alloc, own, &none)?;
        if !some_inclusive(aggs) {
            return Ok(OtherParts {
                all,
                inclusive: false,
                below: Vec::new(alloc),
            });
        }
        let below = parts_below_keys(alloc, room, groups.keys(), own, &none)?;
        Ok(OtherParts {
            all,
            inclusive: true,
            below,
        })
    }

    /// The parts of all records.
    pub(crate) fn all(&self) -> &[Part]
        ensures { result.now ≡ self.now.all }
    {
        let _ = &self.below;
        self.all.as_slice()
    }

    /// The part at a place of those below the group of a number, whose own part there is this one.
    pub(crate) fn below_at(&self, number: usize, place: usize, own: Option<&Part>) -> Option<Part>
        ensures { (parts : List (List Gathered))
            → option_copied own.entry ≡ slice_get (slice_index_or parts number []) place
            → result ≡ slice_get (slice_index_or (below_of self.now parts) number []) place }
    {
        let _ = &self.all;
        if !self.inclusive {
            return Some(own?.twin());
        }
        Some(self.below.get(number)?.get(place)?.twin())
    }
}
