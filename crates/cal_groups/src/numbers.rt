//! The numbers of the nodes of all keys, in one list.
ghost use Rattle.std.specs.Prelude.{◌≡◌, ◌++◌, map, All, IfOk, OnOk};
ghost use Rattle.std.specs.List.{flat_map};
ghost use Rattle.cal_groups.specs.Keys.{IsKeyNumbered, number_at, numbers_of};
ghost use Rattle.cal_nodes.specs.Numbers.{IsNumbered};

use cal_context::NodeNumber;
use cal_nodes::ContextNodes;
use cal_table::TableKey;
use cal_value::OutOfMemory;
use cal_words::NodeId;
use std::alloc::Global;

/// The numbers of the nodes of keys, one key's behind another's: four bytes a node. The nodes of a
/// run lie all over the list of numbers, so a look mostly waits for memory. Here nothing stands
/// between one look and the next, and the processor waits for several at a time.
pub(crate) fn numbers_of_keys(
    alloc: Global,
    nodes: &ContextNodes,
    keys: &[TableKey],
) -> Result<Vec<NodeNumber>, OutOfMemory>
    requires { All (IsKeyNumbered nodes.now) keys.now }
    ensures { IfOk result (λ numbers.
        numbers.items ≡ flat_map (numbers_of nodes.now) keys.now) }
{
    let mut numbers = Vec::with_capacity(alloc, keys.len())?;
    for key in keys {
        add_numbers(nodes, key.refs.as_slice(), &mut numbers)?;
    }
    Ok(numbers)
}

fn add_numbers(
    nodes: &ContextNodes,
    refs: &[NodeId],
    numbers: &mut Vec<NodeNumber>,
) -> Result<(), OutOfMemory>
    requires { All (IsNumbered nodes.now) refs.now }
    ensures { OnOk result
        (numbers.new.items ≡ numbers.old.items ++ map (number_at nodes.now) refs.now) }
{
    for node in refs {
        numbers.push(nodes.numbered(*node))?;
    }
    Ok(())
}
