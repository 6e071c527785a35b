//! What a seeker finds in a record.
ghost use Rattle.std.specs.Prelude.{◌≡◌, ◌<◌, ◌++◌, length, map, slice_get, None, IfSome, is_some};
ghost use Rattle.std.specs.Prelude.{option_and_then, option_map};
ghost use Rattle.std.specs.List.{All, last_or};
ghost use Rattle.std.specs.Option.{option_copied};
ghost use Rattle.cal_context.specs.Snapshots.{IsBelowRoot, IsIn, entry_of, meaning};
ghost use Rattle.cal_context.specs.Tree.{path_at};
ghost use Rattle.cal_filter.specs.Known.{KnowsAll, sought};
ghost use Rattle.cal_filter.specs.Latest.{IsLast, IsReadyOperand};
ghost use Rattle.cal_filter.specs.Sought.{last_sought, value_sought};
ghost use Rattle.cal_value.specs.Flat.{flat, joined};

use crate::latest::Latest;
use crate::seeker::Seeker;
use cal_context::{Context, Immediate, NodeNumber, Snapshot};
use cal_value::Variant;

impl Seeker {
    /// The value of the last entry of a record that is sought. It takes time for its nodes and
    /// immediates.
    #[inline(always)]
    pub fn find<'a>(&self, context: &'a Context, snapshot: &'a Snapshot) -> Option<&'a Variant>
        requires { IsIn context.now snapshot.now }
        ensures { KnowsAll context.now self.now → option_copied result
            ≡ value_sought (sought self.now) (flat (meaning context.now snapshot.now)) }
    {
        self.find_among(context, &snapshot.nodes, &snapshot.imms)
    }

    /// The same where the last immediates of its name are known, which has this number. It takes
    /// time for the record's nodes alone.
    #[inline(always)]
    pub(crate) fn find_by<'a>(
        &self,
        name: usize,
        latest: &Latest,
        context: &'a Context,
        snapshot: &'a Snapshot,
    ) -> Option<&'a Variant>
        requires { IsIn context.now snapshot.now }
        ensures { IsReadyOperand context.now latest.now snapshot.now.imms.items self.now name
            → option_copied result
            ≡ value_sought (sought self.now) (flat (meaning context.now snapshot.now)) }
    {
        let place = self.place(name, latest);
        self.find_at(context, &snapshot.nodes, &snapshot.imms, place)
    }

    #[inline(always)]
    fn find_at<'a>(
        &self,
        context: &'a Context,
        nodes: &[NodeNumber],
        imms: &'a [Immediate],
        place: Option<usize>,
    ) -> Option<&'a Variant>
        requires { All (IsBelowRoot context.now) nodes.now }
        ensures { KnowsAll context.now self.now
            → IsLast context.now (sought self.now) imms.now place
            → option_copied result ≡ value_sought (sought self.now)
            (joined (map (path_at context.now) nodes.now)
            ++ map (entry_of context.now) imms.now) }
    {
        match place {
            Some(place) => value_at(imms, place),
            None => own_value(context, self.last_node(context, nodes)),
        }
    }

    /// The same of the record that nodes and immediates mean.
    #[inline(always)]
    pub fn find_among<'a>(
        &self,
        context: &'a Context,
        nodes: &[NodeNumber],
        imms: &'a [Immediate],
    ) -> Option<&'a Variant>
        requires nodes { All (IsBelowRoot context.now) nodes.now }
        requires imms { All (λ imm. imm.attribute.0 < length context.now.attributes) imms.now }
        ensures { KnowsAll context.now self.now
            → option_copied result ≡ value_sought (sought self.now)
            (joined (map (path_at context.now) nodes.now)
            ++ map (entry_of context.now) imms.now) }
    {
        context.has_each_once();
        if self.sees_nothing() {
            return None;
        }
        self.find_known(context, nodes, imms)
    }

    /// The same, where something may be found.
    #[inline]
    fn find_known<'a>(
        &self,
        context: &'a Context,
        nodes: &[NodeNumber],
        imms: &'a [Immediate],
    ) -> Option<&'a Variant>
        requires nodes { All (IsBelowRoot context.now) nodes.now }
        requires imms { All (λ imm. imm.attribute.0 < length context.now.attributes) imms.now }
        ensures { KnowsAll context.now self.now
            → option_copied result ≡ value_sought (sought self.now)
            (joined (map (path_at context.now) nodes.now)
            ++ map (entry_of context.now) imms.now) }
    {
        match self.last_immediate(context, imms) {
            Some(place) => Some(&imms[place].value),
            None => own_value(context, self.last_node(context, nodes)),
        }
    }

    /// Whether some entry of a record is sought. Its nodes are looked at first, which takes less
    /// time.
    pub fn finds(&self, context: &Context, snapshot: &Snapshot) -> bool
        requires { IsIn context.now snapshot.now }
        ensures { KnowsAll context.now self.now → result
            ≡ is_some (value_sought (sought self.now) (flat (meaning context.now snapshot.now))) }
    {
        context.has_each_once();
        if self.last_node(context, &snapshot.nodes) != NodeNumber::ROOT {
            return true;
        }
        self.last_immediate(context, &snapshot.imms).is_some()
    }

    /// The place of the last immediate that is sought.
    #[inline]
    fn last_immediate(&self, context: &Context, imms: &[Immediate]) -> Option<usize>
        requires { All (λ imm. imm.attribute.0 < length context.now.attributes) imms.now }
        ensures within { IfSome result (λ place. place < length imms.now) }
        ensures last { KnowsAll context.now self.now
            → last_sought (sought self.now) (map (entry_of context.now) imms.now)
            ≡ option_map (entry_of context.now) (option_and_then (slice_get imms.now) result) }
    {
        if self.is_unnamed() {
            return None;
        }
        for place in (0..imms.len()).rev() {
            let imm = &imms[place];
            if self.seeks(context, imm.attribute, &imm.value) {
                return Some(place);
            }
        }
        None
    }

    /// The node whose entry is the last one on the nodes' paths that is sought, or the root.
    fn last_node(&self, context: &Context, nodes: &[NodeNumber]) -> NodeNumber
        requires { All (IsBelowRoot context.now) nodes.now }
        ensures within { KnowsAll context.now self.now → result.0 < length context.now.paths }
        ensures last { KnowsAll context.now self.now
            → last_sought (sought self.now) (joined (map (path_at context.now) nodes.now))
            ≡ last_or None (path_at context.now result) }
    {
        context.has_each_once();
        let mut last = NodeNumber::ROOT;
        for node in nodes {
            let nearest = self.nearest(*node);
            if nearest != NodeNumber::ROOT {
                last = nearest;
            }
        }
        last
    }
}

/// The value of a node's own entry; the root has none.
fn own_value(context: &Context, node: NodeNumber) -> Option<&Variant>
    ensures { node.0 < length context.now.paths → option_copied result
        ≡ option_map (λ e. e.value) (last_or None (path_at context.now node)) }
{
    if node.0 as usize >= context.node_count() {
        return None;
    }
    let link = context.link(node)?;
    Some(context.value_at(link.value))
}

fn value_at(imms: &[Immediate], place: usize) -> Option<&Variant>
    ensures { option_copied result ≡ option_map (λ i. i.value) (slice_get imms.now place) }
{
    match imms.get(place) {
        Some(imm) => Some(&imm.value),
        None => None,
    }
}
