//! The order of values.

use crate::table::all_hold;
use cal_value::{
    Exact, Kind, Seq, TryCopy, ValueFault, Variant, order_is_exact, parse_value,
    printed_reads_back, same,
};
use std::alloc::Global;
use std::hash::{DefaultHasher, Hash, Hasher};

/// How a value is written here: a number, one of kind double in nano-units, or a text of a kind.
#[derive(Clone, Copy)]
enum Written {
    Int(i128),
    Fixed(i128),
    Of(Kind, &'static str),
}

/// Values, each below the next.
const VALUES: [Written; 50] = [
    Written::Int(i128::MIN),
    Written::Int(-170141183460469231731687303716),
    Written::Fixed(i128::MIN),
    Written::Int(-170141183460469231731687303715),
    Written::Fixed(-3000000001),
    Written::Int(-3),
    Written::Fixed(-3000000000),
    Written::Fixed(-2999999999),
    Written::Fixed(-1),
    Written::Int(0),
    Written::Of(Kind::Uint, "0"),
    Written::Fixed(0),
    Written::Fixed(1),
    Written::Int(2),
    Written::Of(Kind::Uint, "2"),
    Written::Fixed(2000000000),
    Written::Fixed(2999999999),
    Written::Int(3),
    Written::Of(Kind::Uint, "18446744073709551615"),
    Written::Fixed(18446744073709551615000000000),
    Written::Int(18446744073709551616),
    Written::Int(170141183460469231731687303715),
    Written::Fixed(i128::MAX),
    Written::Int(170141183460469231731687303716),
    Written::Int(i128::MAX),
    Written::Of(Kind::Bool, "false"),
    Written::Of(Kind::Bool, "true"),
    Written::Of(Kind::Addr, "0x9"),
    Written::Of(Kind::Addr, "0x10"),
    Written::Of(Kind::TypeName, "usr"),
    Written::Of(Kind::TypeName, "int"),
    Written::Of(Kind::TypeName, "uint"),
    Written::Of(Kind::TypeName, "string"),
    Written::Of(Kind::TypeName, "addr"),
    Written::Of(Kind::TypeName, "double"),
    Written::Of(Kind::TypeName, "bool"),
    Written::Of(Kind::TypeName, "type"),
    Written::Of(Kind::TypeName, "ptr"),
    Written::Of(Kind::Str, ""),
    Written::Of(Kind::Str, "Z"),
    Written::Of(Kind::Str, "a"),
    Written::Of(Kind::Str, "aa"),
    Written::Of(Kind::Str, "b"),
    Written::Of(Kind::Str, "ä"),
    Written::Of(Kind::Double, ""),
    Written::Of(Kind::Double, "1e9"),
    Written::Of(Kind::Double, "1e99"),
    Written::Of(Kind::Usr, "a"),
    Written::Of(Kind::Ptr, ""),
    Written::Of(Kind::Ptr, "a"),
];

fn values() -> &'static [Written] {
    &VALUES
}

fn value(alloc: Global, written: Written) -> Result<Variant, ValueFault> {
    match written {
        Written::Int(number) => Ok(Variant::Int(number)),
        Written::Fixed(nanos) => Ok(Variant::Fixed(nanos)),
        Written::Of(kind, text) => parse_value(alloc, kind, text),
    }
}

fn hash_of<T: Hash>(value: &T) -> u64 {
    let mut hasher = DefaultHasher::new();
    value.hash(&mut hasher);
    hasher.finish()
}

/// Whether two of a sorted list compare as their places do.
fn compare<T: Ord + Hash>(one: &T, other: &T, i: usize, j: usize) -> bool {
    one.cmp(other) == i.cmp(&j)
        && (one == other) == (i == j)
        && (hash_of(one) == hash_of(other)) == (i == j)
}

fn compares_with_each<T: Ord + Hash>(one: &T, i: usize, sorted: &[T]) -> bool {
    for j in 0..sorted.len() {
        if !compare(one, &sorted[j], i, j) {
            return false;
        }
    }
    true
}

/// The first of a list that doesn't compare with each other one as their places do.
pub(crate) fn wrong_place<T: Ord + Hash>(sorted: &[T]) -> Option<usize> {
    for i in 0..sorted.len() {
        if !compares_with_each(&sorted[i], i, sorted) {
            return Some(i);
        }
    }
    None
}

pub(crate) fn is_copied<T: TryCopy + Exact>(alloc: Global, value: &T) -> bool {
    match value.copy(alloc) {
        Ok(copied) => same(&copied, value),
        Err(_) => false,
    }
}

fn put_values(alloc: Global, sorted: &mut Seq<Variant>) -> Result<(), ValueFault> {
    let rows = values();
    for row in 0..rows.len() {
        sorted.push(value(alloc, rows[row])?)?;
    }
    Ok(())
}

#[test]
fn orders_values(rt: HostRuntime) {
    let mut sorted = Seq::new(rt.alloc());
    assert!(rt; put_values(rt.alloc(), &mut sorted).is_ok());
    all_hold(&rt, wrong_place(sorted.as_slice()));
    assert!(rt; is_copied(rt.alloc(), &sorted));
    drop(sorted);
    order_is_exact();
    printed_reads_back(&Variant::Bool(true));
}
