ghost use Rattle.std.specs.Prelude.{IfOk};
ghost use Rattle.cal_rowset.specs.Answers.{AreWithin, rows_of};
ghost use Rattle.cal_treefmt.specs.Plans.{IsPlan};

use crate::chains::Chains;
use crate::nodes::Nodes;
use crate::order::order;
use cal_context::Context;
use cal_rowset::Rows;
use cal_value::OutOfMemory;
use std::alloc::Global;

/// What is laid out: the nodes of rows, their order, and the rows at each.
#[derive(Drop)]
pub(crate) struct Plan {
    pub(crate) context: Context,
    // the places of the nodes but the root, from the root down
    pub(crate) order: Vec<usize>,
    pub(crate) rows: Chains,
}

impl Plan {
    pub(crate) fn new(alloc: Global, rows: Rows<'_>) -> Result<Self, OutOfMemory>
        requires { AreWithin rows }
        ensures { IfOk result (λ plan. IsPlan plan (rows_of rows.entry)) }
    {
        let nodes = Nodes::new(alloc, rows)?;
        nodes.context.has_each_once();
        let order = order(alloc, &nodes.context)?;
        let rows = Chains::new(alloc, &nodes.of_rows, nodes.context.node_count())?;
        Ok(Plan {
            context: nodes.context,
            order,
            rows,
        })
    }
}
