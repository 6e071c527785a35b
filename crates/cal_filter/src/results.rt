//! The attributes that the results of a definition of LET have.
ghost use Rattle.std.specs.Prelude.{IfOk};
ghost use Rattle.cal_context.specs.Tree.{Grows};
ghost use Rattle.cal_filter.specs.Kept.{result_attribute as attribute_of};
ghost use Rattle.cal_filter.specs.Results.{AreNumbered, IsNumbered};

use crate::kinds::all_kinds;
use cal_context::{AttributeNumber, Context};
use cal_value::{Attribute, Kind, OutOfMemory, Props, Text, TryCopy};
use std::alloc::Global;

/// The numbers of the attributes of a result of each kind, by the kinds' places, which are added to
/// the context where they are new.
pub(crate) fn result_attributes(
    alloc: Global,
    name: &Text,
    context: &mut Context,
) -> Result<[AttributeNumber; 9], OutOfMemory>
    ensures numbered { IfOk result (λ numbers. AreNumbered context.new name.now numbers) }
    ensures grows { Grows context.old context.new }
{
    let kinds = all_kinds();
    let mut numbers = [AttributeNumber(0); 9];
    for place in 0..kinds.len() {
        numbers[place] = result_attribute(alloc, name, kinds[place], context)?;
    }
    Ok(numbers)
}

/// The number of the attribute of a result of a kind, which is added to the context where it is
/// new.
pub fn result_attribute(
    alloc: Global,
    name: &Text,
    kind: Kind,
    context: &mut Context,
) -> Result<AttributeNumber, OutOfMemory>
    ensures numbered { IfOk result
        (IsNumbered context.new (attribute_of name.now kind)) }
    ensures grows { Grows context.old context.new }
{
    let attribute = Attribute {
        name: name.copy(alloc)?,
        kind,
        props: Props(65),
    };
    context.attribute(&attribute)
}
