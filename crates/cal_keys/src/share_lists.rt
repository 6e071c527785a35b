//! Lists of shares, one for each node, in one block of memory.
ghost use Rattle.std.specs.Prelude.{◌≡◌, ◌+◌, ◌-◌, ◌∷◌, ◌++◌, ◌≤◌, [], List, length, map};
ghost use Rattle.std.specs.Prelude.{replicate, slice_index_or, IfOk, OnOk, OnErr};
ghost use Rattle.std.specs.List.{All};
ghost use Rattle.cal_context.specs.Lists.{IsFront};
ghost use Rattle.cal_keys.specs.Shares.{IsSpanIn, spanned, with_nones, with_share};
ghost use Rattle.cal_keys.specs.declared.share.Share.{Share as AShare};

use crate::share::{Share, add_with};
use cal_context::NodeNumber;
use cal_value::OutOfMemory;
use std::alloc::Global;
use std::marker::Model;

/// Where the shares of a node stand.
#[derive(Clone, Copy)]
struct Span {
    from: u32,
    to: u32,
}

/// A list of shares for each node of a context, by their numbers. A node may have the list of
/// another, and empty lists at the end take no memory.
#[derive(Drop)]
pub(crate) struct ShareLists {
    spans: Vec<Span>,
    // of how many nodes a list is kept; for those that have no span it is empty
    count: usize,
    shares: Vec<Share>,
}

impl Model for ShareLists {
    ghost use Rattle.std.specs.Prelude.{◌≤◌, List, length, map};
    ghost use Rattle.std.specs.List.{All};
    ghost use Rattle.cal_keys.specs.Shares.{IsSpanIn, spanned, with_nones};
    ghost use Rattle.cal_keys.specs.declared.share.Share.{Share};

    ghost Value = { List (List Share) };

    ghost view = { λ s. with_nones (map (spanned s.shares.items) s.spans.items) s.count };

    ghost invariant = { λ s. (length s.spans.items ≤ s.count)
        × All (IsSpanIn s.shares.items) s.spans.items };
}

impl ShareLists {
    /// Of no node. It takes no memory.
    pub(crate) fn new(alloc: Global) -> ShareLists
        ensures { result ≡ [] }
    {
        ShareLists {
            spans: Vec::new(alloc),
            count: 0,
            shares: Vec::new(alloc),
        }
    }

    /// Of how many nodes a list is kept.
    pub(crate) fn len(&self) -> usize
        ensures { result ≡ length self.now }
    {
        let _ = &self.spans;
        let _ = &self.shares;
        self.count
    }

    /// What is kept of a node, or else nothing.
    pub(crate) fn get(&self, node: NodeNumber) -> &[Share]
        ensures { result.now ≡ slice_index_or self.now node.0 [] }
    {
        let _ = self.count;
        let span = span_at(&self.spans, node);
        share_range(&self.shares, span)
    }

    /// Keeps the empty list of each node more, up to so many nodes.
    pub(crate) fn put_nones(&mut self, count: usize)
        ensures { self.new ≡ with_nones self.old count }
    {
        let _ = &self.spans;
        let _ = &self.shares;
        if count <= self.count {
            return;
        }
        self.count = count;
    }

    /// Keeps the empty list of one node more.
    pub(crate) fn push_none(&mut self) -> Result<(), OutOfMemory>
        ensures { OnOk result (self.new ≡ self.old ++ [] ∷ []) }
    {
        let Some(count) = self.count.checked_add(1) else {
            return Err(OutOfMemory);
        };
        self.put_nones(count);
        Ok(())
    }

    /// Keeps of one node more what is kept of another.
    pub(crate) fn push_same(&mut self, like: NodeNumber) -> Result<(), OutOfMemory>
        ensures { OnOk result (self.new ≡ self.old ++ slice_index_or self.old like.0 [] ∷ []) }
    {
        let _ = &self.shares;
        let Some(count) = self.count.checked_add(1) else {
            return Err(OutOfMemory);
        };
        let span = span_at(&self.spans, like);
        add_span(&mut self.spans, self.count, span)?;
        self.count = count;
        Ok(())
    }

    /// Keeps of one node more what is kept of another, with one share more or in place of another.
    pub(crate) fn push_with(&mut self, like: NodeNumber, share: Share) -> Result<(), OutOfMemory>
        ensures { OnOk result (self.new
            ≡ self.old ++ with_share share (slice_index_or self.old like.0 []) ∷ []) }
    {
        let Some(count) = self.count.checked_add(1) else {
            return Err(OutOfMemory);
        };
        let span = put_list(&mut self.shares, span_at(&self.spans, like), share)?;
        add_span(&mut self.spans, self.count, span)?;
        self.count = count;
        Ok(())
    }
}

/// Where the shares of a node stand.
fn span_at(spans: &[Span], node: NodeNumber) -> Span
    ensures { result ≡ slice_index_or spans.now node.0 (record { from = 0; to = 0 }) }
{
    match spans.get(node.0 as usize) {
        Some(span) => *span,
        None => Span { from: 0, to: 0 },
    }
}

/// The shares that stand in a span.
fn share_range(shares: &[Share], span: Span) -> &[Share]
    ensures { IsSpanIn shares.now span → result.now ≡ spanned shares.now span }
{
    shares
        .get(span.from as usize..span.to as usize)
        .unwrap_or(&[])
}

/// Puts the shares of a span behind all, with one more or in place of another.
fn put_list(shares: &mut Vec<Share>, span: Span, share: Share) -> Result<Span, OutOfMemory>
    requires { IsSpanIn shares.old.items span }
    ensures spanned { IfOk result (λ made. spanned shares.new.items made
        ≡ with_share share (spanned shares.old.items span)) }
    ensures within { IfOk result (IsSpanIn shares.new.items) }
    ensures front { IsFront shares.old.items shares.new.items }
{
    let from = shares.len();
    add_with(shares, span.from as usize, span.to as usize, share)?;
    match (u32::try_from(from), u32::try_from(shares.len())) {
        (Ok(from), Ok(to)) => Ok(Span { from, to }),
        _ => Err(OutOfMemory),
    }
}

/// Adds a span behind so many. An empty one needn't be added.
fn add_span(spans: &mut Vec<Span>, count: usize, span: Span) -> Result<(), OutOfMemory>
    requires { length spans.old.items ≤ count }
    ensures added { OnOk result ((shares : List AShare)
        → with_nones (map (spanned shares) spans.new.items) (count + 1)
        ≡ with_nones (map (spanned shares) spans.old.items) count ++ spanned shares span ∷ []) }
    ensures short { OnOk result (length spans.new.items ≤ count + 1) }
    ensures err { OnErr result (length spans.new.items ≤ count) }
    ensures within { (shares : List AShare) → All (IsSpanIn shares) spans.old.items
        → IsSpanIn shares span → All (IsSpanIn shares) spans.new.items }
{
    if span.from == span.to {
        return Ok(());
    }
    pad(spans, count)?;
    spans.push(span)?;
    Ok(())
}

/// Adds empty spans up to so many.
fn pad(spans: &mut Vec<Span>, count: usize) -> Result<(), OutOfMemory>
    requires { length spans.old.items ≤ count }
    ensures ok { OnOk result (spans.new.items ≡ spans.old.items
        ++ replicate (count - length spans.old.items) (record { from = 0; to = 0 })) }
    ensures err { OnErr result (spans.new.items ≡ spans.old.items) }
{
    spans.resize(count, Span { from: 0, to: 0 })?;
    Ok(())
}
