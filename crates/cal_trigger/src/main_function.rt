//! `function=main`, and the function that decides it.
ghost use Rattle.std.specs.Prelude.{◌≡◌, codes, IfOk};
ghost use Rattle.cal_filter.specs.Conditions.{test_holds, where_holds};
ghost use Rattle.cal_ql.specs.declared.query.Test.TheVariants as test;
ghost use Rattle.cal_trigger.specs.Deciding.{speaks_of};
ghost use Rattle.cal_trigger.specs.Named.{in_main, main_condition};

use crate::beside::{beside_ptr, beside_real, beside_text, beside_usr, order};
use cal_ql::{Cond, Test};
use cal_value::{Entry, Kind, OutOfMemory, Rec, Seq, Text};
use std::alloc::Global;

/// The condition `function=main`.
pub fn main_conditions(alloc: Global) -> Result<Seq<Cond>, OutOfMemory>
    ensures { IfOk result (λ conds. conds ≡ in_main) }
{
    let mut conds = Seq::new(alloc);
    conds.push(Cond {
        not: false,
        name: Text::from_str(alloc, "function")?,
        test: Test::Eq(Text::from_str(alloc, "main")?),
    })?;
    Ok(conds)
}

/// Whether a record has an entry `function` that is `main`. It takes no memory.
pub fn is_in_main(rec: &Rec) -> bool
    ensures { result ≡ where_holds in_main rec.now }
{
    for entry in rec.flat() {
        if is_main_function(entry) {
            return true;
        }
    }
    false
}

fn is_main_function(entry: &Entry) -> bool
    ensures { result ≡ speaks_of main_condition entry.now }
{
    order(&entry.attr.name, "function").is_eq() && is_main(entry)
}

/// Whether an entry's value is `main`, read as its kind. No number, truth, address or kind is.
fn is_main(entry: &Entry) -> bool
    ensures { result ≡ test_holds (test.Eq (codes "main")) entry.now }
{
    match entry.attr.kind {
        Kind::Str => beside_text(&entry.value, "main").is_eq(),
        Kind::Double => beside_real(&entry.value, "main").is_eq(),
        Kind::Usr => beside_usr(&entry.value, "main").is_eq(),
        Kind::Ptr => beside_ptr(&entry.value, "main").is_eq(),
        Kind::Int | Kind::Uint | Kind::Addr | Kind::Bool | Kind::TypeName => false,
    }
}
