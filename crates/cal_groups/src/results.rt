//! The attributes of one result in a context, and its immediate.
ghost use Rattle.std.specs.Prelude.{◌≡◌, ◌++◌, ℕ, List, IfOk, OnOk};
ghost use Rattle.std.specs.Option.{option_to_list};
ghost use Rattle.cal_context.specs.Tree.{Grows, Tree};
ghost use Rattle.cal_filter.specs.Kept.{result_attribute as attribute_of_result};
ghost use Rattle.cal_filter.specs.Numbers.{value_of_number as value_of};
ghost use Rattle.cal_filter.specs.Results.{IsNumbered};
ghost use Rattle.cal_groups.specs.Appended.{Appends};
ghost use Rattle.cal_groups.specs.Columns.{AreOfResult};
ghost use Rattle.cal_profile.specs.TableRows.{entry_for};
ghost use Rattle.cal_ql.specs.declared.query.Agg.{Agg as AnAgg};
ghost use Rattle.cal_value.specs.Values.{kind_of};

use cal_agg::Num;
use cal_context::{AttributeNumber, Context, Immediate};
use cal_filter::{result_attribute, value_of_number};
use cal_value::{Kind, OutOfMemory, Text};
use std::alloc::Global;

/// The numbers of a result's attributes: that of a whole number, and that of a fixed one.
#[derive(Clone, Copy)]
pub(crate) struct ResultNumbers {
    whole: AttributeNumber,
    fixed: AttributeNumber,
}

impl ResultNumbers {
    /// Those of the result of a value attribute, which are added to the context where they are new.
    /// `front` is what stands before the attribute in the result's name.
    pub(crate) fn new(
        alloc: Global,
        front: &str,
        attr: &str,
        context: &mut Context,
    ) -> Result<ResultNumbers, OutOfMemory>
        ensures numbered { IfOk result (AreOfResult context.new (front.now ++ attr.now)) }
        ensures grows { Grows context.old context.new }
    {
        let mut name = Text::from_str(alloc, front)?;
        name.push_str(attr)?;
        let whole = result_attribute(alloc, &name, Kind::Int, context)?;
        let fixed = result_attribute(alloc, &name, Kind::Double, context)?;
        Ok(ResultNumbers { whole, fixed })
    }

    /// Appends the immediate of the result, if it is there.
    pub(crate) fn push(
        &self,
        number: Option<Num>,
        imms: &mut Vec<Immediate>,
    ) -> Result<(), OutOfMemory>
        ensures { OnOk result ((t : Tree) (agg : AnAgg) → AreOfResult t agg.name self.now
            → Appends t imms.old.items imms.new.items
            (option_to_list (entry_for agg number))) }
    {
        let Some(number) = number else {
            return Ok(());
        };
        let attribute = self.attribute_of(number);
        imms.push(Immediate {
            attribute,
            value: value_of_number(number),
        })?;
        Ok(())
    }

    fn attribute_of(&self, number: Num) -> AttributeNumber
        ensures { (t : Tree) (name : List ℕ) → AreOfResult t name self.now
            → IsNumbered t (attribute_of_result name (kind_of (value_of number))) result }
    {
        match number {
            Num::Whole(_) => self.whole,
            Num::Fixed(_) => self.fixed,
        }
    }
}
