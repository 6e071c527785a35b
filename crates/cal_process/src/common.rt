ghost use Rattle.std.specs.Prelude.{◌≡◌, IfOk};
ghost use Rattle.cal_once.specs.Seats.{view};
ghost use Rattle.cal_once.specs.Views.{first_seat};
ghost use Rattle.cal_plog.specs.Seats as history;
ghost use Rattle.cal_process.specs.Replicas.{IsCommon};
ghost use Rattle.cal_process.specs.Rooms.{UsesSevenEach};
ghost use Rattle.cal_script.specs.Shapes.{history_shape, tree_shape};
ghost use Rattle.cal_script.specs.Valid.{IsRunnable};
ghost use Rattle.cal_tree.specs.Seats as tree;

use crate::process_ops::process_ops;
use cal_plog::{LogSeat, PLog};
use cal_script::{Script, history_shape, tree_shape};
use cal_tree::{Tree, TreeSeat};
use cal_value::OutOfMemory;
use std::alloc::Global;

/// What the threads of a run have in common, as far as their boards need it: the script, the tree
/// of nodes, and the history of process operations.
#[derive(Drop)]
pub struct Common<'a> {
    pub script: &'a Script,
    pub tree: Tree,
    pub log: PLog,
}

impl<'a> Common<'a> {
    /// An empty tree and an empty history, which have room for all that the script's lines may put
    /// there, and the first seat of each.
    pub fn new(
        alloc: Global,
        script: &'a Script,
    ) -> Result<(Common<'a>, TreeSeat, LogSeat), OutOfMemory>
        requires { IsRunnable script.now }
        ensures common { IfOk result (λ r. IsCommon r.0) }
        ensures script { IfOk result (λ r. r.0.script.now ≡ script.now) }
        ensures unused { IfOk result (λ r. UsesSevenEach (view r.2)) }
        ensures tree { IfOk result (λ r. ((tree.plan_of r.0.tree).shape ≡ tree_shape script.now)
            × tree.IsTreeSeat r.0.tree r.1 × (view r.1 ≡ first_seat (tree.plan_of r.0.tree))) }
        ensures log { IfOk result (λ r.
            ((history.plan_of r.0.log).shape ≡ history_shape script.now)
            × history.IsLogSeat r.0.log r.2 × (view r.2 ≡ first_seat (history.plan_of r.0.log))) }
    {
        let ops = process_ops(alloc, script)?;
        let (tree, tree_seat) = Tree::new(alloc, tree_shape(script))?;
        let (log, log_seat) = PLog::new(alloc, history_shape(script), ops)?;
        Ok((Common { script, tree, log }, tree_seat, log_seat))
    }
}
