//! The results of one value attribute in a context.
ghost use Rattle.std.specs.Prelude.{ℕ, List, IfOk, OnOk};
ghost use Rattle.std.specs.Option.{ForSome};
ghost use Rattle.cal_agg.specs.Numbers.{IsSmall, IsWithin};
ghost use Rattle.cal_context.specs.Tree.{Grows, Tree};
ghost use Rattle.cal_groups.specs.Appended.{Appends};
ghost use Rattle.cal_groups.specs.Columns.{IsColumn, cell_results};

use crate::cell_results::{greatest_result, least_result, sum_result};
use crate::results::ResultNumbers;
use cal_agg::{Cell, Num};
use cal_context::{Context, Immediate};
use cal_value::OutOfMemory;
use std::alloc::Global;

/// The attributes of the results of a value attribute, by numbers.
#[derive(Clone, Copy)]
pub(crate) struct ResultColumn {
    sum: ResultNumbers,
    least: ResultNumbers,
    greatest: ResultNumbers,
}

impl ResultColumn {
    /// Those of a value attribute, which are added to the context where they are new.
    pub(crate) fn new(
        alloc: Global,
        attr: &str,
        context: &mut Context,
    ) -> Result<ResultColumn, OutOfMemory>
        ensures column { IfOk result (IsColumn context.new attr.now) }
        ensures grows { Grows context.old context.new }
    {
        let sum = ResultNumbers::new(alloc, "sum#", attr, context)?;
        let least = ResultNumbers::new(alloc, "min#", attr, context)?;
        let greatest = ResultNumbers::new(alloc, "max#", attr, context)?;
        Ok(ResultColumn {
            sum,
            least,
            greatest,
        })
    }

    /// Appends the immediates of a cell's results. `known` is the number of the attribute that the
    /// row's key has, if it has one.
    pub(crate) fn push_cell(
        &self,
        count: i128,
        known: Option<Num>,
        cell: &Cell,
        imms: &mut Vec<Immediate>,
    ) -> Result<(), OutOfMemory>
        requires count { IsWithin 40 count }
        requires known { ForSome known IsSmall }
        ensures { OnOk result ((t : Tree) (attr : List ℕ) → IsColumn t attr self.now
            → Appends t imms.old.items imms.new.items (cell_results count known attr cell.now)) }
    {
        let sum = sum_result(count, known, cell);
        let least = least_result(known, cell);
        let greatest = greatest_result(known, cell);
        self.sum.push(sum, imms)?;
        self.least.push(least, imms)?;
        self.greatest.push(greatest, imms)?;
        Ok(())
    }
}
