ghost use Rattle.std.specs.Prelude.{◌≡◌, ◌<◌, ◌≤◌, ◌^◌};
ghost use Rattle.cal_words.specs.Homes.{words_hash};
ghost use Rattle.cal_words.specs.Nodes.{words_of};
ghost use Rattle.cal_words.specs.Records.{IsNode, IsValue};
ghost use Rattle.cal_words.specs.Words.{text_length};

use crate::hash::{hash_word, start_hash};
use crate::value::{kind_word, know_value, value_len, value_word};
use crate::{NodeSort, Packed};
use cal_value::Variant;

/// A node of the context tree: 0 is the root, and `p + 1` the node at place p.
#[derive(Clone, Copy, Debug, PartialEq, Eq, Hash)]
pub struct NodeId(pub u32);

/// A node to be found or made. Its depth is 1 below the root.
#[derive(Clone, Copy)]
pub struct NodeRec<'a> {
    pub parent: NodeId,
    pub depth: u32,
    pub attr: u32,
    pub value: &'a Variant,
}

impl Packed<NodeSort> for NodeRec<'_> {
    ghost words = { words_of };

    fn len(&self) -> u64 {
        4 + value_len(self.value)
    }

    fn word(&self, i: u64) -> u64 {
        match i {
            0 => u64::from(self.parent.0),
            1 => u64::from(self.depth),
            2 => u64::from(self.attr),
            3 => kind_word(self.value),
            _ => value_word(self.value, i - 4),
        }
    }

    fn matches(&self, i: u64, w: u64) -> bool {
        self.word(i) == w
    }

    fn home(&self, homes: u64) -> u64 {
        hash(self) % homes
    }
}

fn hash(node: &NodeRec<'_>) -> u64
    ensures { result ≡ words_hash (words_of node.now) }
{
    let mut hash = start_hash();
    for i in 0..node.len() {
        hash = hash_word(hash, node.word(i));
    }
    hash
}

/// The words of a node are a record of `NodeSort`, where its depth is at most 128 and its text has
/// fewer than 2^32 bytes; and its value is one. It costs nothing.
pub fn know_node(node: &NodeRec<'_>)
    requires depth { node.now.depth ≤ 128 }
    requires text { text_length node.now.value.now < 2 ^ 32 }
    ensures node { IsNode (words_of node.now) }
    ensures value { IsValue node.now.value.now }
{
    let NodeRec {
        parent: NodeId(_parent),
        depth: _depth,
        attr: _attr,
        value,
    } = *node;
    know_value(value);
}
