ghost use Rattle.std.specs.Prelude.{◌≡◌, [], ◌∷◌, List, length, IfOk, OnOk, OnErr, IsTrue};
ghost use Rattle.std.specs.Prelude.{Some, false, is_some};
ghost use Rattle.cal_agg.specs.declared.num.Num.{Num as Number};
ghost use Rattle.cal_agg.specs.declared.num.Num.TheVariants.{Whole};
ghost use Rattle.cal_agg.specs.Numbers.{some_fixed, IsSmall};
ghost use Rattle.cal_agg.specs.Parts.{greatest_over, least_over, sum_over};
ghost use Rattle.cal_agg.specs.Results.{average_of, both, count_of, greatest_of, least_of};
ghost use Rattle.cal_agg.specs.Results.{percent_total_of, sum_of};
ghost use Rattle.cal_parts.specs.Shown.{ArePartsOf};
ghost use Rattle.cal_parts.specs.Kernels.{result_of};
ghost use Rattle.cal_parts.specs.declared.part.Held.TheVariants as held;
ghost use Rattle.cal_parts.specs.Parts.{given as given_if, held_by, joined_by, merged_part};
ghost use Rattle.cal_parts.specs.Parts.{part_over, parts_in, way_in, way_of as way_by};
ghost use Rattle.cal_parts.specs.Parts.{HasRoom, IsWithinWay};

use cal_agg::{Greatest, Kernel, Least, Num, Sum, average, percent_total};
use cal_ql::KernelName;
use cal_value::{OutOfMemory, TryCopy};
use std::alloc::Global;
use std::marker::Model;

/// What a kernel holds of numbers: an end for `min` and `max`, and else their sum.
#[derive(Clone, Copy, Debug)]
pub(crate) enum Held {
    Sum(Sum),
    Least(Least),
    Greatest(Greatest),
}

/// How a kernel takes numbers together.
#[derive(Clone, Copy, Debug, PartialEq, Eq)]
pub(crate) enum Way {
    Sum,
    Least,
    Greatest,
}

/// How many numbers contributed to a kernel in a group, and what is held of them: of the whole
/// numbers, and of the fixed ones apart from them.
#[derive(Debug, Drop)]
pub struct Part {
    many: u32,
    way: Way,
    has_whole: bool,
    has_fixed: bool,
    whole: i128,
    fixed: i128,
}

impl Model for Part {
    ghost use Rattle.cal_parts.specs.Parts.{given, held_by, Gathered, HasRoom};
    ghost use Rattle.cal_agg.specs.Parts as summed;

    ghost Value = { Gathered };

    ghost view = { λ p. record {
      many = p.many;
      held = held_by p.way
          (record { whole = given p.has_whole p.whole; fixed = given p.has_fixed p.fixed });
    } };

    ghost invariant = { λ p. HasRoom p.many (held_by p.way
        (record { whole = given p.has_whole p.whole; fixed = given p.has_fixed p.fixed })) };
}

impl Part {
    /// What is kept of no number.
    pub fn none(kernel: KernelName) -> Part
        ensures { result ≡ part_over kernel [] }
    {
        Part {
            many: 0,
            way: way_of(kernel),
            has_whole: false,
            has_fixed: false,
            whole: 0,
            fixed: 0,
        }
    }

    /// What is kept of one number.
    #[inline(always)]
    fn one(kernel: KernelName, number: Num) -> Part
        requires { IsSmall number }
        ensures { result ≡ part_over kernel (number ∷ []) }
    {
        let way = way_of(kernel);
        match number {
            Num::Whole(whole) => Part {
                many: 1,
                way,
                has_whole: true,
                has_fixed: false,
                whole,
                fixed: 0,
            },
            Num::Fixed(fixed) => Part {
                many: 1,
                way,
                has_whole: false,
                has_fixed: true,
                whole: 0,
                fixed,
            },
        }
    }

    /// What is kept of these numbers. A number above 2^86 in magnitude is answered as want of
    /// memory is.
    pub fn of(kernel: KernelName, numbers: &[Num]) -> Result<Part, OutOfMemory>
        ensures { IfOk result (λ part. part ≡ part_over kernel numbers.now) }
    {
        let mut part = Part::none(kernel);
        for number in numbers {
            part.add(kernel, number)?;
        }
        Ok(part)
    }

    /// Adds a number. One above 2^86 in magnitude, the 2^32nd number, and a part of another kernel
    /// are answered as want of memory is.
    #[inline(always)]
    pub fn add(&mut self, kernel: KernelName, number: &Num) -> Result<(), OutOfMemory>
        ensures { OnOk result
            (self.new ≡ merged_part self.old (part_over kernel (number.now ∷ []))) }
    {
        if !number.is_small() {
            return Err(OutOfMemory);
        }
        // each kind of number on its own, so that no part of one number is made at run time
        match number {
            Num::Whole(whole) => self.merge(&Part::one(kernel, Num::Whole(*whole))),
            Num::Fixed(fixed) => self.merge(&Part::one(kernel, Num::Fixed(*fixed))),
        }
    }

    /// Takes another part of its kernel in behind this one. An `Err`, after 2^32 numbers or at a
    /// part of another kernel, leaves it.
    #[inline(always)]
    pub fn merge(&mut self, other: &Part) -> Result<(), OutOfMemory>
        ensures ok { OnOk result (self.new ≡ merged_part self.old other.now) }
        ensures err { OnErr result (self.new ≡ self.old) }
    {
        let Some(many) = self.many().checked_add(other.many()) else {
            return Err(OutOfMemory);
        };
        let way = self.way();
        if !is_same(way, other.way()) {
            return Err(OutOfMemory);
        }
        let whole = together(way, self.whole(), other.whole());
        let fixed = together(way, self.fixed(), other.fixed());
        *self = Part::made(many, way, whole, fixed);
        Ok(())
    }

    /// A part of so many numbers, and what they come to.
    #[inline(always)]
    pub(crate) fn made(many: u32, way: Way, whole: Option<i128>, fixed: Option<i128>) -> Part
        requires { HasRoom many (held_by way (record { whole = whole; fixed = fixed })) }
        ensures { result ≡ record {
          many = many;
          held = held_by way
              (record { whole = whole; fixed = fixed });
        } }
    {
        Part {
            many,
            way,
            has_whole: whole.is_some(),
            has_fixed: fixed.is_some(),
            whole: number_in(whole),
            fixed: number_in(fixed),
        }
    }

    #[inline(always)]
    pub(crate) fn many(&self) -> u32
        ensures many { result ≡ self.now.many }
        ensures room { HasRoom self.now.many self.now.held }
    {
        self.many
    }

    #[inline(always)]
    pub(crate) fn way(&self) -> Way
        ensures { result ≡ way_in self.now.held }
    {
        self.way
    }

    #[inline(always)]
    pub(crate) fn whole(&self) -> Option<i128>
        ensures { result ≡ (parts_in self.now.held).whole }
    {
        given(self.has_whole, self.whole)
    }

    #[inline(always)]
    pub(crate) fn fixed(&self) -> Option<i128>
        ensures { result ≡ (parts_in self.now.held).fixed }
    {
        given(self.has_fixed, self.fixed)
    }

    /// The same part.
    pub fn twin(&self) -> Part
        ensures { result ≡ self.now }
    {
        Part {
            many: self.many,
            way: self.way,
            has_whole: self.has_whole,
            has_fixed: self.has_fixed,
            whole: self.whole,
            fixed: self.fixed,
        }
    }

    /// What a kernel comes to in a group: of its own part, of that of all groups, and of that of
    /// the groups below it.
    pub fn value(&self, kernel: KernelName, all: &Part, below: &Part) -> Option<Num>
        ensures { (own ms bs : List Number) → ArePartsOf kernel own ms bs self.now all.now below.now
            → result ≡ result_of kernel own ms bs }
    {
        match kernel {
            KernelName::Count => Some(self.count()),
            KernelName::Sum => self.sum_value(),
            KernelName::Min => self.least_value(),
            KernelName::Max => self.greatest_value(),
            KernelName::Avg => self.average_value(),
            KernelName::Percent => self.percentage(all),
            KernelName::Inclusive => below.sum_value(),
        }
    }

    /// What is held of the numbers.
    fn held(&self) -> Held
        ensures { result ≡ self.now.held }
    {
        let _ = self.many();
        let whole = self.whole();
        let fixed = self.fixed();
        match self.way() {
            Way::Sum => Held::Sum(Sum::of_parts(whole, fixed)),
            Way::Least => Held::Least(Least::of_parts(whole, fixed)),
            Way::Greatest => Held::Greatest(Greatest::of_parts(whole, fixed)),
        }
    }

    /// A sum of weights.
    fn count(&self) -> Num
        ensures { (ns : List Number) → some_fixed ns ≡ false
            → self.now.held ≡ held.Sum (sum_over ns) → result ≡ Whole (count_of ns) }
    {
        self.sum_value().unwrap_or(Num::Whole(0))
    }

    fn sum_value(&self) -> Option<Num>
        ensures { (ns : List Number) → self.now.held ≡ held.Sum (sum_over ns) → result ≡ sum_of ns }
    {
        match self.held() {
            Held::Sum(sum) => sum.value(),
            _ => None,
        }
    }

    fn least_value(&self) -> Option<Num>
        ensures { (ns : List Number) → self.now.held ≡ held.Least (least_over ns)
            → result ≡ least_of ns }
    {
        match self.held() {
            Held::Least(end) => end.value(),
            _ => None,
        }
    }

    fn greatest_value(&self) -> Option<Num>
        ensures { (ns : List Number) → self.now.held ≡ held.Greatest (greatest_over ns)
            → result ≡ greatest_of ns }
    {
        match self.held() {
            Held::Greatest(end) => end.value(),
            _ => None,
        }
    }

    fn average_value(&self) -> Option<Num>
        ensures { (ns : List Number) → self.now.held ≡ held.Sum (sum_over ns)
            → self.now.many ≡ length ns → result ≡ average_of ns }
    {
        match self.held() {
            Held::Sum(sum) => average(&sum, u64::from(self.many())),
            _ => None,
        }
    }

    fn percentage(&self, all: &Part) -> Option<Num>
        ensures { (ns ms : List Number) → self.now.held ≡ held.Sum (sum_over ns)
            → all.now.held ≡ held.Sum (sum_over ms) → result ≡ percent_total_of ns ms }
    {
        let _ = self.many();
        match self.held() {
            Held::Sum(sum) => match all.held() {
                Held::Sum(all) => percent_total(&sum, &all),
                _ => None,
            },
            _ => None,
        }
    }
}

impl TryCopy for Part {
    fn copy(&self, _alloc: Global) -> Result<Part, OutOfMemory> {
        Ok(self.twin())
    }
}

pub(crate) fn way_of(kernel: KernelName) -> Way
    ensures { result ≡ way_by kernel }
{
    match kernel {
        KernelName::Min => Way::Least,
        KernelName::Max => Way::Greatest,
        _ => Way::Sum,
    }
}

#[inline(always)]
pub(crate) fn is_same(one: Way, other: Way) -> bool
    ensures { IsTrue result → one ≡ other }
{
    one == other
}

#[inline(always)]
fn given(has: bool, number: i128) -> Option<i128>
    ensures { result ≡ given_if has number }
{
    if has { Some(number) } else { None }
}

/// A number that is there, or else 0.
#[inline(always)]
fn number_in(number: Option<i128>) -> i128
    ensures { given_if (is_some number) result ≡ number }
{
    match number {
        Some(number) => number,
        None => 0,
    }
}

/// Two numbers taken together, of which either may be missing.
#[inline(always)]
fn together(way: Way, one: Option<i128>, other: Option<i128>) -> Option<i128>
    requires { IsWithinWay way (both (joined_by way) one other) }
    ensures { result ≡ both (joined_by way) one other }
{
    match (one, other) {
        (Some(one), Some(other)) => Some(joined(way, one, other)),
        (Some(one), None) => Some(one),
        (None, other) => other,
    }
}

#[inline(always)]
fn joined(way: Way, one: i128, other: i128) -> i128
    requires { IsWithinWay way (Some (joined_by way one other)) }
    ensures { result ≡ joined_by way one other }
{
    match way {
        Way::Sum => one + other,
        Way::Least => one.min(other),
        Way::Greatest => one.max(other),
    }
}
