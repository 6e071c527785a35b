ghost use Rattle.cal_value.specs.ExactOrder.{exact_alike};
ghost use Rattle.cal_value.specs.OrderLaws.{value_exact};

use crate::{Kind, OutOfMemory, Text, TryCopy};
use std::alloc::Global;

/// A value (Caliper's data model). An `Int` has 128 bits here, so that sums are exact.
/// A `Fixed` is a decimal of kind `double`, in nano-units; a `Real` is any other text of that kind.
#[derive(Debug, Drop, Hash)]
pub enum Variant {
    Int(i128),
    Uint(u64),
    Text(Text),
    Bool(bool),
    Addr(u64),
    Kind(Kind),
    Real(Text),
    Fixed(i128),
    Usr(Text),
    Ptr(Text),
}

impl TryCopy for Variant {
    fn copy(&self, alloc: Global) -> Result<Self, OutOfMemory> {
        Ok(match self {
            Variant::Int(number) => Variant::Int(*number),
            Variant::Uint(number) => Variant::Uint(*number),
            Variant::Text(text) => Variant::Text(text.copy(alloc)?),
            Variant::Bool(truth) => Variant::Bool(*truth),
            Variant::Addr(address) => Variant::Addr(*address),
            Variant::Kind(kind) => Variant::Kind(*kind),
            Variant::Real(text) => Variant::Real(text.copy(alloc)?),
            Variant::Fixed(nanos) => Variant::Fixed(*nanos),
            Variant::Usr(text) => Variant::Usr(text.copy(alloc)?),
            Variant::Ptr(text) => Variant::Ptr(text.copy(alloc)?),
        })
    }
}

#[derived]
impl Hash for Variant {
    ghost respects_eq = { exact_alike value_exact _ };
}
