ghost use Rattle.std.specs.Prelude.{◌≡◌, [], ◌∷◌, Some, IfSome};
ghost use Rattle.cal_parts.specs.Parts.{joined_by, merged_part, part_over};
ghost use Rattle.cal_parts.specs.Shown.{ComesTo, shows_held as shows_held_of};

use crate::part::{Part, Way, is_same, way_of};
use cal_agg::Num;
use cal_ql::KernelName;
use std::marker::Model;

/// A part in a third of the room, for whole numbers that fit 64 bits with their signs, which nearly
/// all are.
#[derive(Debug, Drop)]
pub(crate) struct NarrowPart {
    whole: i64,
    many: u32,
    way: Way,
    has_whole: bool,
}

impl Model for NarrowPart {
    ghost use Rattle.std.specs.Prelude.{None};
    ghost use Rattle.cal_parts.specs.Parts.{given, held_by, Gathered, HasRoom};

    ghost Value = { Gathered };

    ghost view = { λ p. record {
      many = p.many;
      held = held_by p.way (record { whole = given p.has_whole p.whole; fixed = None });
    } };

    ghost invariant = { λ p. HasRoom p.many (held_by p.way
        (record { whole = given p.has_whole p.whole; fixed = None })) };
}

impl NarrowPart {
    /// The same as a part, where that is narrow enough.
    #[inline(always)]
    pub fn of(part: &Part) -> Option<NarrowPart>
        ensures { IfSome result (λ narrow. narrow ≡ part.now) }
    {
        let whole = part.whole();
        if part.fixed().is_some() {
            return None;
        }
        let number = match whole {
            Some(number) => i64::try_from(number).ok()?,
            None => 0,
        };
        Some(NarrowPart {
            whole: number,
            many: part.many(),
            way: part.way(),
            has_whole: whole.is_some(),
        })
    }

    /// The same part.
    #[inline(always)]
    pub fn wide(&self) -> Part
        ensures { result ≡ self.now }
    {
        let whole = if self.has_whole {
            Some(i128::from(self.whole))
        } else {
            None
        };
        Part::made(self.many, self.way, whole, None)
    }

    /// What a kernel comes to, where that is the number that is held.
    #[inline(always)]
    pub fn shown(&self, kernel: KernelName) -> Option<i64>
        ensures { IfSome result (ComesTo kernel (Some self.now)) }
    {
        let _ = self.many;
        let _ = self.way;
        if !shows_held(kernel) || !self.has_whole {
            return None;
        }
        Some(self.whole)
    }

    /// The part with another one behind it, where that is narrow enough.
    pub fn merged(&self, part: &Part) -> Option<NarrowPart>
        ensures { IfSome result (λ narrow. narrow ≡ merged_part self.now part.now) }
    {
        let mut merged = self.wide();
        if merged.merge(part).is_err() {
            return None;
        }
        NarrowPart::of(&merged)
    }

    /// The part with a number more, where that is narrow enough.
    #[inline(always)]
    pub fn with(&self, kernel: KernelName, number: &Num) -> Option<NarrowPart>
        ensures { IfSome result (λ narrow.
            narrow ≡ merged_part self.now (part_over kernel (number.now ∷ []))) }
    {
        let Num::Whole(number) = number else {
            return None;
        };
        let number = i64::try_from(*number).ok()?;
        let many = self.many.checked_add(1)?;
        let way = way_of(kernel);
        if !is_same(self.way, way) {
            return None;
        }
        let whole = if self.has_whole {
            joined(way, self.whole, number)?
        } else {
            number
        };
        Some(NarrowPart {
            whole,
            many,
            way,
            has_whole: true,
        })
    }
}

#[inline(always)]
fn shows_held(kernel: KernelName) -> bool
    ensures { result ≡ shows_held_of kernel }
{
    matches!(
        kernel,
        KernelName::Count | KernelName::Sum | KernelName::Min | KernelName::Max
    )
}

#[inline(always)]
fn joined(way: Way, one: i64, other: i64) -> Option<i64>
    ensures { IfSome result (λ both. both ≡ joined_by way one other) }
{
    match way {
        Way::Sum => one.checked_add(other),
        Way::Least => Some(one.min(other)),
        Way::Greatest => Some(one.max(other)),
    }
}
