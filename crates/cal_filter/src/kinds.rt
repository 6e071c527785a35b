//! All kinds by their places, and what a text writes as each.
ghost use Rattle.std.specs.Prelude.{◌≡◌, map, IfOk};
ghost use Rattle.cal_filter.specs.Sought.{kind_place as place_of};
ghost use Rattle.cal_value.specs.Kinds.{every_kind};
ghost use Rattle.cal_value.specs.Reading.{value_of};
ghost use Rattle.cal_value.specs.Values.{kind_of as kind_of_value};

use cal_value::{Kind, OutOfMemory, ValueFault, Variant, parse_value};
use std::alloc::Global;

/// The place of a kind among all kinds.
pub(crate) fn kind_place(kind: Kind) -> usize
    ensures { result ≡ place_of kind }
{
    match kind {
        Kind::Usr => 0,
        Kind::Int => 1,
        Kind::Uint => 2,
        Kind::Str => 3,
        Kind::Addr => 4,
        Kind::Double => 5,
        Kind::Bool => 6,
        Kind::TypeName => 7,
        Kind::Ptr => 8,
    }
}

/// All kinds, by their places.
pub(crate) fn all_kinds() -> [Kind; 9]
    ensures { result ≡ every_kind }
{
    [
        Kind::Usr,
        Kind::Int,
        Kind::Uint,
        Kind::Str,
        Kind::Addr,
        Kind::Double,
        Kind::Bool,
        Kind::TypeName,
        Kind::Ptr,
    ]
}

/// The kind of a value.
pub(crate) fn kind_of(value: &Variant) -> Kind
    ensures { result ≡ kind_of_value value.now }
{
    match value {
        Variant::Int(_) => Kind::Int,
        Variant::Uint(_) => Kind::Uint,
        Variant::Text(_) => Kind::Str,
        Variant::Bool(_) => Kind::Bool,
        Variant::Addr(_) => Kind::Addr,
        Variant::Kind(_) => Kind::TypeName,
        Variant::Real(_) => Kind::Double,
        Variant::Fixed(_) => Kind::Double,
        Variant::Usr(_) => Kind::Usr,
        Variant::Ptr(_) => Kind::Ptr,
    }
}

/// What a text writes as each kind, by the kinds' places.
pub(crate) fn values_of(alloc: Global, text: &str) -> Result<Vec<Option<Variant>>, OutOfMemory>
    ensures { IfOk result (λ values. values.items ≡ map (λ k. value_of k text.now) every_kind) }
{
    let kinds = all_kinds();
    let mut values = Vec::new(alloc);
    for kind in &kinds {
        values.push(value_as(alloc, *kind, text)?)?;
    }
    Ok(values)
}

/// What a text writes as a kind, if it writes a value.
fn value_as(alloc: Global, kind: Kind, text: &str) -> Result<Option<Variant>, OutOfMemory>
    ensures { IfOk result (λ value. value ≡ value_of kind text.now) }
{
    match parse_value(alloc, kind, text) {
        Ok(value) => Ok(Some(value)),
        Err(ValueFault::BadValue) => Ok(None),
        Err(ValueFault::OutOfMemory) => Err(OutOfMemory),
    }
}
