//! A look at the list of numbers.
ghost use Rattle.std.specs.Prelude.{◌≡◌, ◌<◌, length};
ghost use Rattle.cal_nodes.specs.Numbers.{number_in};

use cal_context::NodeNumber;
use cal_words::NodeId;

/// The number of a node, if it has one.
pub(crate) fn number_at(numbers: &[Option<NodeNumber>], node: NodeId) -> Option<NodeNumber>
    requires { node.0 < length numbers.now }
    ensures { result ≡ number_in numbers.now node }
{
    numbers[node.0 as usize]
}
