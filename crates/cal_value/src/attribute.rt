ghost use Rattle.std.specs.Prelude.{◌≡◌, ◌↔◌, IsTrue, refl};
ghost use Rattle.std.specs.Cmp.{partial_order_from_total};
ghost use Rattle.std.specs.Ordering.{as_partial_cmp, eq_by_cmp};
ghost use Rattle.cal_value.specs.Order.{attribute_cmp, entry_cmp};
ghost use Rattle.cal_value.specs.OrderLaws.{attribute_exact, entry_exact};
ghost use Rattle.cal_value.specs.ExactOrder.{exact_per, exact_equiv, exact_alike};

use crate::{Kind, OutOfMemory, Props, Text, TryCopy, Variant};
use std::alloc::Global;
use std::cmp::Ordering;

/// An attribute: two with equal name, kind and properties are the same one (Caliper's data model).
#[derive(Debug, Drop, Hash)]
pub struct Attribute {
    pub name: Text,
    pub kind: Kind,
    pub props: Props,
}

/// An attribute with a value, which is of the attribute's kind; `IsEntry` says so.
#[derive(Debug, Drop, Hash)]
pub struct Entry {
    pub attr: Attribute,
    pub value: Variant,
}

impl TryCopy for Attribute {
    fn copy(&self, alloc: Global) -> Result<Self, OutOfMemory> {
        Ok(Attribute {
            name: self.name.copy(alloc)?,
            kind: self.kind,
            props: self.props,
        })
    }
}

impl PartialEq for Attribute {
    ghost eq = { eq_by_cmp attribute_cmp };

    ghost laws = { exact_per attribute_exact };

    fn eq(&self, other: &Attribute) -> bool
        ensures value { result ≡ eq_by_cmp attribute_cmp self.now other.now }
        ensures same { IsTrue result ↔ (self.now ≡ other.now) }
    {
        self.kind == other.kind && self.props == other.props && self.name == other.name
    }
}

impl Eq for Attribute {
    ghost laws = { exact_equiv attribute_exact };
}

#[derived]
impl Hash for Attribute {
    ghost respects_eq = { exact_alike attribute_exact _ };
}

impl PartialOrd for Attribute {
    ghost partial_cmp = { as_partial_cmp attribute_cmp };

    ghost laws = { partial_order_from_total attribute_exact.total };

    fn partial_cmp(&self, other: &Attribute) -> Option<Ordering> {
        Some(self.cmp(other))
    }
}

impl Ord for Attribute {
    ghost cmp = { attribute_cmp };

    ghost total = { attribute_exact.total };

    ghost matches_partial_cmp = { λ _ _. refl };

    ghost matches_eq = { λ _ _. refl };

    fn cmp(&self, other: &Attribute) -> Ordering {
        self.name.cmp(&other.name).then_with(|| {
            self.kind
                .cmp(&other.kind)
                .then_with(|| self.props.cmp(&other.props))
        })
    }
}

impl TryCopy for Entry {
    fn copy(&self, alloc: Global) -> Result<Self, OutOfMemory> {
        Ok(Entry {
            attr: self.attr.copy(alloc)?,
            value: self.value.copy(alloc)?,
        })
    }
}

impl PartialEq for Entry {
    ghost eq = { eq_by_cmp entry_cmp };

    ghost laws = { exact_per entry_exact };

    fn eq(&self, other: &Entry) -> bool
        ensures value { result ≡ eq_by_cmp entry_cmp self.now other.now }
        ensures same { IsTrue result ↔ (self.now ≡ other.now) }
    {
        self.attr == other.attr && self.value == other.value
    }
}

impl Eq for Entry {
    ghost laws = { exact_equiv entry_exact };
}

#[derived]
impl Hash for Entry {
    ghost respects_eq = { exact_alike entry_exact _ };
}

impl PartialOrd for Entry {
    ghost partial_cmp = { as_partial_cmp entry_cmp };

    ghost laws = { partial_order_from_total entry_exact.total };

    fn partial_cmp(&self, other: &Entry) -> Option<Ordering> {
        Some(self.cmp(other))
    }
}

impl Ord for Entry {
    ghost cmp = { entry_cmp };

    ghost total = { entry_exact.total };

    ghost matches_partial_cmp = { λ _ _. refl };

    ghost matches_eq = { λ _ _. refl };

    fn cmp(&self, other: &Entry) -> Ordering {
        self.attr
            .cmp(&other.attr)
            .then_with(|| self.value.cmp(&other.value))
    }
}
