//! The nodes of a key: up to two in the key itself, and more in a block of memory.
ghost use Rattle.std.specs.Prelude.{◌≡◌, ◌≤◌, [], length, nat_eq, take, IfOk, OnOk};
ghost use Rattle.std.specs.Cmp.Lexicographic.{pointwise};
ghost use Rattle.std.specs.Cmp.Rules.{comparing, hashing};
ghost use Rattle.std.specs.Hash as fed;
ghost use Rattle.std.specs.Hash.{items_Alike, on_Alike, same_Alike};
ghost use Rattle.std.specs.Ordering.{on};
ghost use Rattle.std.proofs.Common.{rules};
ghost use Rattle.std.proofs.lemmas.Bool.Decides.{Decides-eqb};
ghost use Rattle.cal_table.specs.KeyNodes.{nodes_in};

use cal_value::{Exact, OutOfMemory, TryCopy};
use cal_words::NodeId;
use std::alloc::Global;
use std::hash::{Hash, Hasher};
use std::marker::Model;

/// Nodes, as contracts see a list. Up to two take no memory of their own.
#[derive(Debug, Drop)]
pub struct KeyNodes {
    nodes: Nodes,
}

#[derive(Debug, Drop)]
enum Nodes {
    Few(FewNodes),
    Many(Vec<NodeId>),
}

// Up to two nodes.
#[derive(Debug, Drop)]
struct FewNodes {
    nodes: [NodeId; 2],
    count: usize,
}

impl Model for KeyNodes {
    ghost use Rattle.std.specs.Prelude.{List};
    ghost use Rattle.cal_words.specs.declared.node.NodeId.{NodeId};
    ghost use Rattle.cal_table.specs.KeyNodes.{nodes_in};

    ghost Value = { List NodeId };

    ghost view = { λ k. nodes_in k.nodes };
}

impl Model for FewNodes {
    ghost use Rattle.std.specs.Prelude.{◌≤◌, List, take};
    ghost use Rattle.cal_words.specs.declared.node.NodeId.{NodeId};

    ghost Value = { List NodeId };

    ghost view = { λ f. take f.count f.nodes };

    ghost invariant = { λ f. f.count ≤ 2 };
}

impl KeyNodes {
    /// No node.
    pub fn new() -> KeyNodes
        ensures { result ≡ [] }
    {
        KeyNodes {
            nodes: Nodes::Few(FewNodes {
                nodes: [NodeId(0), NodeId(0)],
                count: 0,
            }),
        }
    }

    /// These nodes. It takes memory where they are more than two.
    pub fn from_slice(alloc: Global, nodes: &[NodeId]) -> Result<KeyNodes, OutOfMemory>
        ensures { IfOk result (λ key. key ≡ nodes.now) }
    {
        Ok(KeyNodes {
            nodes: held(alloc, nodes)?,
        })
    }

    /// The nodes.
    pub fn as_slice(&self) -> &[NodeId]
        ensures { result.now ≡ self.now }
    {
        match &self.nodes {
            Nodes::Few(few) => few.as_slice(),
            Nodes::Many(many) => many.as_slice(),
        }
    }

    /// Becomes these nodes. It takes memory where they are more than it ever held, and than two.
    pub(crate) fn refill(&mut self, alloc: Global, nodes: &[NodeId]) -> Result<(), OutOfMemory>
        ensures { OnOk result (self.new ≡ nodes.now) }
    {
        if let Nodes::Many(many) = &mut self.nodes {
            many.clear();
            many.extend_from_slice(nodes)?;
            return Ok(());
        }
        self.nodes = held(alloc, nodes)?;
        Ok(())
    }
}

impl FewNodes {
    fn as_slice(&self) -> &[NodeId]
        ensures { result.now ≡ self.now }
    {
        &self.nodes[..self.count]
    }
}

fn held(alloc: Global, nodes: &[NodeId]) -> Result<Nodes, OutOfMemory>
    ensures { IfOk result (λ held. nodes_in held ≡ nodes.now) }
{
    let none = NodeId(0);
    let (few, count) = match nodes {
        [] => ([none, none], 0),
        [one] => ([*one, none], 1),
        [one, two] => ([*one, *two], 2),
        _ => return Ok(Nodes::Many(Vec::from_slice(alloc, nodes)?)),
    };
    Ok(Nodes::Few(FewNodes { nodes: few, count }))
}

impl TryCopy for KeyNodes {
    fn copy(&self, alloc: Global) -> Result<KeyNodes, OutOfMemory> {
        KeyNodes::from_slice(alloc, self.as_slice())
    }
}

impl PartialEq for KeyNodes {
    ghost eq = { pointwise (on (λ n. n.0) nat_eq) };

    ghost laws = { Prim.search (comparing, rules) };

    fn eq(&self, other: &KeyNodes) -> bool {
        self.as_slice() == other.as_slice()
    }
}

impl Eq for KeyNodes {
    ghost laws = { Prim.search (comparing, rules) };
}

impl Hash for KeyNodes {
    ghost hash_input = { fed.slice (λ n. fed.u32 n.0) };

    ghost respects_eq = { (items_Alike (on_Alike (λ n. n.0) (same_Alike fed.u32 Decides-eqb))).fed };

    fn hash<H: Hasher>(&self, state: &mut H) {
        self.as_slice().hash(state);
    }
}

impl Exact for KeyNodes {
    ghost use Rattle.std.proofs.Common.{rules};
    ghost use Rattle.std.proofs.lemmas.Grind.{common_steps};
    ghost use Rattle.cal_value.specs.ExactOrder.{lists_tell};

    ghost tells = { Prim.search (rules, common_steps, lists_tell) };
}
