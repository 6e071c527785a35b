//! `time.duration.ns>=1000`, and the function that decides it.
ghost use Rattle.std.specs.Prelude.{◌≡◌, codes, IfOk};
ghost use Rattle.cal_filter.specs.Conditions.{test_holds, where_holds};
ghost use Rattle.cal_ql.specs.declared.query.Test.TheVariants as test;
ghost use Rattle.cal_trigger.specs.Deciding.{speaks_of};
ghost use Rattle.cal_trigger.specs.Named.{slow, slow_condition};

use crate::beside::{beside_ptr, beside_text, beside_usr, order};
use cal_ql::{Cond, Test};
use cal_value::{Entry, Kind, OutOfMemory, Rec, Seq, Text, Variant};
use std::alloc::Global;

/// The condition `time.duration.ns>=1000`.
pub fn slow_conditions(alloc: Global) -> Result<Seq<Cond>, OutOfMemory>
    ensures { IfOk result (λ conds. conds ≡ slow) }
{
    let mut conds = Seq::new(alloc);
    conds.push(Cond {
        not: false,
        name: Text::from_str(alloc, "time.duration.ns")?,
        test: Test::Ge(Text::from_str(alloc, "1000")?),
    })?;
    Ok(conds)
}

/// Whether a record has an entry `time.duration.ns` of at least 1000. It takes no memory.
pub fn is_slow(rec: &Rec) -> bool
    ensures { result ≡ where_holds slow rec.now }
{
    for entry in rec.flat() {
        if is_long_duration(entry) {
            return true;
        }
    }
    false
}

fn is_long_duration(entry: &Entry) -> bool
    ensures { result ≡ speaks_of slow_condition entry.now }
{
    order(&entry.attr.name, "time.duration.ns").is_eq() && is_long(entry)
}

/// Whether an entry's value is at least 1000, read as its kind. As an address `1000` is 4096, and
/// it is no truth and no kind.
fn is_long(entry: &Entry) -> bool
    ensures { result ≡ test_holds (test.Ge (codes "1000")) entry.now }
{
    let value = &entry.value;
    match entry.attr.kind {
        Kind::Int => value.cmp(&Variant::Int(1000)).is_ge(),
        Kind::Uint => value.cmp(&Variant::Uint(1000)).is_ge(),
        Kind::Double => value.cmp(&Variant::Fixed(1_000_000_000_000)).is_ge(),
        Kind::Addr => value.cmp(&Variant::Addr(0x1000)).is_ge(),
        Kind::Str => beside_text(value, "1000").is_ge(),
        Kind::Usr => beside_usr(value, "1000").is_ge(),
        Kind::Ptr => beside_ptr(value, "1000").is_ge(),
        Kind::Bool | Kind::TypeName => false,
    }
}
