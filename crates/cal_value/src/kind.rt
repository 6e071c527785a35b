ghost use Rattle.std.specs.Prelude.{◌≡◌, ◌≢◌, ◌↔◌, IfNone, IfSome, IsTrue, refl};
ghost use Rattle.std.specs.Cmp.{partial_order_from_total};
ghost use Rattle.std.specs.Ordering.{as_partial_cmp, eq_by_cmp};
ghost use Rattle.cal_value.specs.Kinds.{kind_name, kind_named, kind_node};
ghost use Rattle.cal_value.specs.declared.kind.Kind.{Kind};
ghost use Rattle.cal_value.specs.Order.{kind_cmp};
ghost use Rattle.cal_value.specs.OrderLaws.{kind_exact};
ghost use Rattle.cal_value.specs.ExactOrder.{exact_equiv, exact_per};

use crate::{OutOfMemory, TryCopy};
use std::alloc::Global;
use std::cmp::Ordering;

/// What the values of an attribute are (Caliper's data model; the numbers of the nodes are
/// Giltmoth's).
#[derive(Clone, Copy, Debug, Hash)]
pub enum Kind {
    Usr,
    Int,
    Uint,
    Str,
    Addr,
    Double,
    Bool,
    TypeName,
    Ptr,
}

impl Kind {
    /// The node that stands for the kind in every stream.
    pub fn node(self) -> u64
        ensures { result ≡ kind_node self }
    {
        match self {
            Kind::Usr => 0,
            Kind::Int => 1,
            Kind::Uint => 2,
            Kind::Str => 3,
            Kind::Addr => 4,
            Kind::Double => 5,
            Kind::Bool => 6,
            Kind::TypeName => 7,
            Kind::Ptr => 11,
        }
    }

    /// The name of the kind, as the `.cali` format spells it.
    pub fn name(self) -> &'static str
        ensures { result.now ≡ kind_name self }
    {
        match self {
            Kind::Usr => "usr",
            Kind::Int => "int",
            Kind::Uint => "uint",
            Kind::Str => "string",
            Kind::Addr => "addr",
            Kind::Double => "double",
            Kind::Bool => "bool",
            Kind::TypeName => "type",
            Kind::Ptr => "ptr",
        }
    }

    /// The kind of this name, in the very letters.
    pub fn from_name(name: &str) -> Option<Kind>
        ensures value { result ≡ kind_named name.now }
        ensures named { IfSome result (λ kind. kind_name kind ≡ name.now) }
        ensures none { IfNone result ((kind : Kind) → kind_name kind ≢ name.now) }
    {
        match name {
            "usr" => Some(Kind::Usr),
            "int" => Some(Kind::Int),
            "uint" => Some(Kind::Uint),
            "string" => Some(Kind::Str),
            "addr" => Some(Kind::Addr),
            "double" => Some(Kind::Double),
            "bool" => Some(Kind::Bool),
            "type" => Some(Kind::TypeName),
            "ptr" => Some(Kind::Ptr),
            _ => None,
        }
    }
}

impl TryCopy for Kind {
    fn copy(&self, _alloc: Global) -> Result<Self, OutOfMemory> {
        Ok(*self)
    }
}

impl PartialEq for Kind {
    ghost eq = { eq_by_cmp kind_cmp };

    ghost laws = { exact_per kind_exact };

    fn eq(&self, other: &Kind) -> bool
        ensures value { result ≡ eq_by_cmp kind_cmp self.now other.now }
        ensures same { IsTrue result ↔ (self.now ≡ other.now) }
    {
        self.node() == other.node()
    }
}

impl Eq for Kind {
    ghost laws = { exact_equiv kind_exact };
}

impl PartialOrd for Kind {
    ghost partial_cmp = { as_partial_cmp kind_cmp };

    ghost laws = { partial_order_from_total kind_exact.total };

    fn partial_cmp(&self, other: &Kind) -> Option<Ordering> {
        Some(self.cmp(other))
    }
}

impl Ord for Kind {
    ghost cmp = { kind_cmp };

    ghost total = { kind_exact.total };

    ghost matches_partial_cmp = { λ _ _. refl };

    ghost matches_eq = { λ _ _. refl };

    fn cmp(&self, other: &Kind) -> Ordering {
        self.node().cmp(&other.node())
    }
}
