ghost use Rattle.std.specs.Prelude.{◌≡◌, [], length, map, take, IfOk, IfSome, OnErr};
ghost use Rattle.cal_context.specs.Lists.{AreApart, Interns};
ghost use Rattle.cal_keys.specs.Keys.{nth_key, single_key};

use crate::hashed_keys::HashedKeys;
use crate::key::GroupKey;
use crate::node_interner::NodeInterner;
use cal_context::NodeNumber;
use cal_seeds::Seeds;
use cal_value::OutOfMemory;
use std::alloc::Global;
use std::marker::Model;
use std::slice;

/// The keys of groups in first-seen order, each once.
#[derive(Drop)]
pub struct KeyTable {
    form: Form,
    seeds: Seeds,
}

/// A key that is a single node, or none, stands as that node. The first key that isn't lets all be
/// hashed.
#[derive(Drop)]
enum Form {
    Single(NodeInterner),
    Hashed(HashedKeys),
}

impl Model for KeyTable {
    ghost use Rattle.std.specs.Prelude.{List};
    ghost use Rattle.cal_keys.specs.declared.key.GroupKey.{GroupKey as AKey};
    ghost use Rattle.cal_keys.specs.KeyTables.{keys_of};

    ghost Value = { List AKey };

    ghost view = { λ s. keys_of s.form };
}

impl KeyTable {
    /// No key, where keys hash by these seeds. It takes no memory.
    pub fn new(alloc: Global, seeds: Seeds) -> KeyTable
        ensures { result ≡ [] }
    {
        KeyTable {
            form: Form::Single(NodeInterner::new(alloc)),
            seeds,
        }
    }

    /// How many there are.
    pub fn count(&self) -> usize
        ensures count { result ≡ length self.now }
        ensures apart { AreApart self.now }
    {
        match &self.form {
            Form::Single(nodes) => nodes.as_slice().len(),
            Form::Hashed(keys) => keys.as_slice().len(),
        }
    }

    /// The nodes of the paths of a number's key.
    pub fn paths(&self, number: usize) -> &[NodeNumber]
        ensures { result.now ≡ (nth_key self.now number).paths }
    {
        match &self.form {
            Form::Single(nodes) => single_path(nodes.as_slice(), number),
            Form::Hashed(keys) => match keys.as_slice().get(number) {
                Some(key) => key.paths(),
                None => &[],
            },
        }
    }

    /// The node of the immediates of a number's key.
    pub fn imms(&self, number: usize) -> NodeNumber
        ensures { result ≡ (nth_key self.now number).imms }
    {
        match &self.form {
            Form::Single(_) => NodeNumber::ROOT,
            Form::Hashed(keys) => match keys.as_slice().get(number) {
                Some(key) => key.imms(),
                None => NodeNumber::ROOT,
            },
        }
    }

    /// The node of a number's key, where that is a single one or none.
    pub(crate) fn single_node(&self, number: usize) -> Option<NodeNumber>
        ensures { IfSome result (λ node. nth_key self.now number ≡ single_key node) }
    {
        match &self.form {
            Form::Single(nodes) => nodes.as_slice().get(number).copied(),
            Form::Hashed(keys) => keys.as_slice().get(number)?.single_node(),
        }
    }

    /// The number of a key, which is copied where it is new.
    pub fn intern(&mut self, alloc: Global, key: &GroupKey) -> Result<usize, OutOfMemory>
        ensures interned { IfOk result (Interns self.old key.now self.new) }
        ensures err { OnErr result (self.new ≡ self.old) }
    {
        if let Form::Single(nodes) = &mut self.form {
            if let Some(node) = key.single_node() {
                return nodes.intern(node);
            }
        }
        self.intern_hashed(alloc, key)
    }

    /// The same, where all are hashed.
    fn intern_hashed(&mut self, alloc: Global, key: &GroupKey) -> Result<usize, OutOfMemory>
        ensures interned { IfOk result (Interns self.old key.now self.new) }
        ensures err { OnErr result (self.new ≡ self.old) }
    {
        match &mut self.form {
            Form::Hashed(keys) => keys.intern(key),
            Form::Single(nodes) => {
                let mut keys = hashed(alloc, self.seeds, nodes.as_slice())?;
                let number = keys.intern(key)?;
                self.form = Form::Hashed(keys);
                Ok(number)
            }
        }
    }

    /// Drops the keys from this number on.
    pub fn truncate(&mut self, count: usize)
        ensures { self.new ≡ take count self.old }
    {
        match &mut self.form {
            Form::Single(nodes) => nodes.truncate(count),
            Form::Hashed(keys) => keys.truncate(count),
        }
    }
}

/// The path of a number's node, or none where that is the root.
fn single_path(nodes: &[NodeNumber], number: usize) -> &[NodeNumber]
    ensures { result.now ≡ (nth_key (map single_key nodes.now) number).paths }
{
    match nodes.get(number) {
        Some(node) if node.0 != 0 => slice::from_ref(node),
        _ => &[],
    }
}

/// The keys of nodes that are apart.
fn hashed(alloc: Global, seeds: Seeds, nodes: &[NodeNumber]) -> Result<HashedKeys, OutOfMemory>
    requires { AreApart nodes.now }
    ensures { IfOk result (λ made. made.keys ≡ map single_key nodes.now) }
{
    let mut keys = HashedKeys::new(alloc, seeds);
    for node in nodes {
        keys.intern(&GroupKey::single(alloc, *node)?)?;
    }
    Ok(keys)
}
