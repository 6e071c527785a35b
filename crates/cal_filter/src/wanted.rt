//! What is wanted of an entry beside its name.
ghost use Rattle.std.specs.Prelude.{◌≡◌, is_some, IfOk};
ghost use Rattle.cal_filter.specs.Conditions.{compares, test_holds};
ghost use Rattle.cal_filter.specs.Numbers.{whole_in};
ghost use Rattle.cal_filter.specs.Sought.{passes as is_wanted, stands, wanted_by};
ghost use Rattle.cal_value.specs.declared.attribute.Entry.{Entry};

use crate::kinds::{kind_place, values_of};
use crate::number_in;
use crate::relation::Relation;
use cal_agg::Num;
use cal_ql::{Op, Test};
use cal_value::{Kind, OutOfMemory, Text, Variant};
use std::alloc::Global;

/// What is wanted of an entry beside its name.
#[derive(Drop)]
pub(crate) enum Wanted {
    /// Nothing.
    Any,
    /// That its value is a number.
    Number,
    /// That its value is a whole number.
    Whole,
    /// How its value stands to another.
    Compared(Compared),
}

/// How a value is to stand to the one that is kept for the kind of its attribute.
#[derive(Drop)]
pub(crate) struct Compared {
    relation: Relation,
    values: Vec<Option<Variant>>,
}

impl Wanted {
    /// What a test wants.
    pub(crate) fn of_test(alloc: Global, test: &Test) -> Result<Wanted, OutOfMemory>
        ensures { IfOk result (λ wanted. (e : Entry)
            → is_wanted wanted e.attr.kind e.value ≡ test_holds test.now e) }
    {
        match test {
            Test::Has => Ok(Wanted::Any),
            Test::Eq(text) => Wanted::compared(alloc, Relation::Equal, text),
            Test::Lt(text) => Wanted::compared(alloc, Relation::Less, text),
            Test::Gt(text) => Wanted::compared(alloc, Relation::Greater, text),
            Test::Le(text) => Wanted::compared(alloc, Relation::AtMost, text),
            Test::Ge(text) => Wanted::compared(alloc, Relation::AtLeast, text),
        }
    }

    fn compared(alloc: Global, relation: Relation, text: &Text) -> Result<Wanted, OutOfMemory>
        ensures { IfOk result (λ wanted. (e : Entry)
            → is_wanted wanted e.attr.kind e.value ≡ compares (stands relation) text.now e) }
    {
        let values = values_of(alloc, text.as_str())?;
        Ok(Wanted::kept(relation, values))
    }

    fn kept(relation: Relation, values: Vec<Option<Variant>>) -> Wanted
        ensures { result ≡ Wanted.Compared (record { relation = relation; values = values }) }
    {
        Wanted::Compared(Compared { relation, values })
    }

    /// What an operator wants.
    pub(crate) fn of_op(op: Op) -> Wanted
        ensures { result ≡ wanted_by op }
    {
        match op {
            Op::First => Wanted::Any,
            _ => Wanted::Number,
        }
    }

    /// Whether a value of an attribute of this kind is wanted.
    pub(crate) fn passes(&self, kind: Kind, value: &Variant) -> bool
        ensures { result ≡ is_wanted self.now kind value.now }
    {
        match self {
            Wanted::Any => true,
            Wanted::Number => number_in(value).is_some(),
            Wanted::Whole => is_whole(value),
            Wanted::Compared(compared) => compared.holds(kind, value),
        }
    }
}

impl Compared {
    fn holds(&self, kind: Kind, value: &Variant) -> bool
        ensures { result ≡ is_wanted (Wanted.Compared self.now) kind value.now }
    {
        match self.values.get(kind_place(kind)) {
            Some(Some(other)) => self.relation.holds(value.cmp(other)),
            _ => false,
        }
    }
}

fn is_whole(value: &Variant) -> bool
    ensures { result ≡ is_some (whole_in value.now) }
{
    matches!(number_in(value), Some(Num::Whole(_)))
}
