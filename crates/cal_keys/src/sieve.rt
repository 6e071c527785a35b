//! What the names of GROUP BY take of records by number.
ghost use Rattle.std.specs.Prelude.{◌≡◌, ℕ, ◌+◌, ◌<◌, [], List, length, IfOk, OnOk};
ghost use Rattle.cal_context.specs.Tree.{Grows, Tree};
ghost use Rattle.cal_keys.specs.Keys.{names_in};
ghost use Rattle.cal_keys.specs.Sieves.{IsReadySieve, IsSieve, KnowsAttributes, shares_at};
ghost use Rattle.cal_keys.specs.Takers.{taker_at};

use crate::share::{Share, node_for};
use crate::share_lists::ShareLists;
use crate::stepping::step;
use crate::takers::Takers;
use cal_context::{AttributeNumber, Context, NodeNumber};
use cal_seeds::Seeds;
use cal_value::{OutOfMemory, Seq, Text};
use std::alloc::Global;

/// What the names of GROUP BY take of records by number. What each takes of a path is a path in the
/// tree of groups, which is found once for each node, from its parent's. Only what is taken costs
/// memory, however many names there are.
#[derive(Drop)]
pub struct Sieve {
    takers: Takers,
    // of each node: what is taken of its path
    shares: ShareLists,
}

impl Sieve {
    /// The sieve of the names of a query, if it has GROUP BY. It knows no node yet, and its names
    /// hash by these seeds.
    pub fn of(alloc: Global, seeds: Seeds, names: &Option<Seq<Text>>) -> Result<Sieve, OutOfMemory>
        ensures { IfOk result (λ sieve. (t own : Tree) → IsSieve t own (names_in names.now) sieve) }
    {
        let takers = match names {
            Some(names) => Takers::of(alloc, seeds, names.as_slice())?,
            None => Takers::of(alloc, seeds, &[])?,
        };
        Ok(Sieve {
            takers,
            shares: ShareLists::new(alloc),
        })
    }

    /// What is taken of a node's path, in the order of the names.
    pub(crate) fn shares(&self, node: NodeNumber) -> &[Share]
        ensures { result.now ≡ shares_at self.now node }
    {
        let _ = &self.takers;
        self.shares.get(node)
    }

    /// The place of the name that takes the immediates of an attribute.
    pub(crate) fn beside(&self, attribute: AttributeNumber) -> Option<u32>
        ensures { result ≡ (taker_at self.now.takers attribute).beside }
    {
        let _ = &self.shares;
        self.takers.beside(attribute)
    }

    /// Gets to know what is new in a context.
    pub fn catch_up(&mut self, context: &Context, own: &mut Context) -> Result<(), OutOfMemory>
        ensures ready { OnOk result ((names : List (List ℕ))
            → IsSieve context.now own.old names self.old
            → IsReadySieve context.now own.new names self.new) }
        ensures grows { OnOk result (Grows own.old own.new) }
    {
        self.takers.catch_up(context)?;
        if self.takers.is_none() {
            self.know_nothing(context, own);
            return Ok(());
        }
        self.know_nodes(context, own)
    }

    /// Takes nothing of the nodes that are new in a context, where there is no name.
    fn know_nothing(&mut self, context: &Context, own: &Context)
        ensures { KnowsAttributes context.now own.now [] self.old
            → IsReadySieve context.now own.now [] self.new }
    {
        let _ = &self.takers;
        own.has_each_once();
        self.shares.put_nones(context.node_count());
    }

    /// Gets to know the nodes that are new in a context.
    fn know_nodes(&mut self, context: &Context, own: &mut Context) -> Result<(), OutOfMemory>
        ensures ready { OnOk result ((names : List (List ℕ))
            → KnowsAttributes context.now own.old names self.old
            → IsReadySieve context.now own.new names self.new) }
        ensures grows { OnOk result (Grows own.old own.new) }
    {
        for place in self.shares.len()..context.node_count() {
            let Ok(number) = u32::try_from(place) else {
                return Err(OutOfMemory);
            };
            self.know_node(context, own, NodeNumber(number))?;
        }
        Ok(())
    }

    /// Gets to know the first node that isn't known.
    fn know_node(
        &mut self,
        context: &Context,
        own: &mut Context,
        node: NodeNumber,
    ) -> Result<(), OutOfMemory>
        requires within { node.0 < length context.now.paths }
        requires next { node.0 ≡ length self.old.shares }
        ensures knows { OnOk result ((names : List (List ℕ))
            → KnowsAttributes context.now own.old names self.old
            → KnowsAttributes context.now own.new names self.new) }
        ensures next { OnOk result (length self.new.shares ≡ length self.old.shares + 1) }
        ensures grows { OnOk result (Grows own.old own.new) }
    {
        own.has_each_once();
        let Some(link) = context.link(node) else {
            self.shares.push_none()?;
            return Ok(());
        };
        let Some(place) = self.takers.in_paths(link.attribute) else {
            self.shares.push_same(link.parent)?;
            return Ok(());
        };
        let above = node_for(self.shares.get(link.parent), place);
        let attribute = context.attribute_at(link.attribute);
        let node = step(own, above, attribute, context.value_at(link.value))?;
        own.has_each_once();
        self.shares.push_with(link.parent, Share { place, node })?;
        Ok(())
    }
}
