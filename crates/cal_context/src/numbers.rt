ghost use Rattle.std.proofs.Common.{rules};
ghost use Rattle.std.proofs.lemmas.Grind.{common_steps};

use cal_value::Exact;

/// The number of an attribute in a context.
#[derive(Clone, Copy, Debug, PartialEq, Eq, Hash)]
pub struct AttributeNumber(pub u32);

/// The number of a value in a context.
#[derive(Clone, Copy, Debug, PartialEq, Eq, Hash)]
pub struct ValueNumber(pub u32);

/// The number of a node in a context. The root has 0, and each node a greater one than its parent.
#[derive(Clone, Copy, Debug, PartialEq, Eq, Hash)]
pub struct NodeNumber(pub u32);

impl NodeNumber {
    pub const ROOT: NodeNumber = NodeNumber(0);
}

/// How a node hangs in the tree: its parent, and the attribute and the value of its own entry.
#[derive(Clone, Copy, Debug, PartialEq, Eq, Hash)]
pub struct Link {
    pub parent: NodeNumber,
    pub attribute: AttributeNumber,
    pub value: ValueNumber,
}

impl Exact for NodeNumber {
    ghost tells = { Prim.search (rules, common_steps) };
}

impl Exact for Link {
    ghost tells = { Prim.search (rules, common_steps) };
}
