ghost use Rattle.std.specs.Prelude.{◌≡◌, ℕ, ◌+◌, ◌<◌, Bool, List, [], ◌∷◌, ◌++◌, filter, length};
ghost use Rattle.std.specs.Prelude.{take, IfOk, OnOk};
ghost use Rattle.std.specs.List.{list_any};
ghost use Rattle.cal_value.specs.declared.record.Rec.{Rec};
ghost use Rattle.cal_rowset.specs.Known.{is_known};
ghost use Rattle.cal_treefmt.specs.Columns.{columns_beside, is_beside_names};
ghost use Rattle.cal_treefmt.specs.Walks.{HasNodes};

use cal_context::{AttributeNumber, Context};
use cal_rowset::{Column, Names, is_path};
use cal_value::{OutOfMemory, Text, TryCopy};
use std::alloc::Global;

/// Those of an answer's columns that stand beside the tree of its rows, whose nodes are given.
pub(crate) fn columns_beside(
    alloc: Global,
    columns: &[Column],
    context: &Context,
) -> Result<Vec<Column>, OutOfMemory>
    ensures { IfOk result (λ beside. (rows : List Rec) → HasNodes context.now rows
        → beside.items ≡ columns_beside rows columns.now) }
{
    let names = nested_names(alloc, context)?;
    let mut beside = Vec::new(alloc);
    for column in columns {
        push_beside(alloc, &mut beside, &names, column)?;
    }
    Ok(beside)
}

/// Adds a column, unless it shows the hierarchy or one of these names.
fn push_beside(
    alloc: Global,
    beside: &mut Vec<Column>,
    names: &Names,
    column: &Column,
) -> Result<(), OutOfMemory>
    ensures { OnOk result (beside.new.items ≡ beside.old.items
        ++ filter (is_beside_names names.now) (column.now ∷ [])) }
{
    if is_path(&column.name) || is_known(names, &column.name) {
        return Ok(());
    }
    beside.push(column.copy(alloc)?)?;
    Ok(())
}

fn is_known(names: &Names, name: &Text) -> bool
    ensures { result ≡ is_known names.now name.now }
{
    names.place(name).is_some()
}

/// The names of a context's attributes, each once.
fn nested_names(alloc: Global, context: &Context) -> Result<Names, OutOfMemory>
    ensures { IfOk result (λ names. (test : List ℕ → Bool)
        → list_any test names ≡ list_any (λ a. test a.name) context.now.attributes) }
{
    let mut names = Names::seeded(alloc, context.seeds());
    for number in 0..context.attribute_count() {
        learn(&mut names, context, number)?;
    }
    Ok(names)
}

// A context has fewer than 2^32 attributes.
fn learn(names: &mut Names, context: &Context, number: usize) -> Result<(), OutOfMemory>
    requires { number < length context.now.attributes }
    ensures { OnOk result ((test : List ℕ → Bool)
        → list_any test names.old ≡ list_any (λ a. test a.name) (take number context.now.attributes)
        → list_any test names.new
        ≡ list_any (λ a. test a.name) (take (number + 1) context.now.attributes)) }
{
    let Ok(number) = u32::try_from(number) else {
        return Err(OutOfMemory);
    };
    let attribute = context.attribute_at(AttributeNumber(number));
    names.learn(&attribute.name)?;
    Ok(())
}
