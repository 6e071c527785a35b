//! The parts of a snapshot, one behind the other.
ghost use Rattle.std.specs.Prelude.{◌≡◌, ◌++◌, IfOk};

use cal_value::{OutOfMemory, Seq};
use cal_words::NodeId;
use std::alloc::Global;

/// The thread's nodes, and behind them the process's.
pub(crate) fn nodes(
    alloc: Global,
    mine: &Seq<NodeId>,
    process: &Seq<NodeId>,
) -> Result<Vec<NodeId>, OutOfMemory>
    ensures { IfOk result (λ nodes. nodes.items ≡ mine.now ++ process.now) }
{
    let mut nodes = Vec::with_capacity(alloc, mine.len())?;
    nodes.extend_from_slice(mine.as_slice())?;
    nodes.extend_from_slice(process.as_slice())?;
    Ok(nodes)
}

/// The entries of both lists.
pub(crate) fn joined<T: Drop>(head: Vec<T>, tops: Vec<T>) -> Result<Vec<T>, OutOfMemory>
    ensures { IfOk result (λ all. all.items ≡ head.items ++ tops.items) }
{
    let mut all = head;
    for entry in tops {
        all.push(entry)?;
    }
    Ok(all)
}
