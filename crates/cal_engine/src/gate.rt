ghost use Rattle.std.specs.Prelude.{◌≡◌, ◌+◌, ◌<◌, ◌≤◌, [], ◌∷◌, ◌++◌, IsTrue, length, max, take};
ghost use Rattle.std.specs.Prelude.{filter, IfOk, OnOk};
ghost use Rattle.std.specs.List.{All};
ghost use Rattle.cal_context.specs.Snapshots.{IsIn, meaning};
ghost use Rattle.cal_context.specs.Tree.{Grows};
ghost use Rattle.cal_filter.specs.Conditions.{where_holds};
ghost use Rattle.cal_filter.specs.Filtered.{IsFiltered};
ghost use Rattle.cal_ql.specs.Valid.{IsValidQuery};
ghost use Rattle.cal_ql.specs.declared.query.Query.{Query as AQuery};
ghost use Rattle.cal_value.specs.Reading.{IsSmall};
ghost use Rattle.cal_engine.specs.Gates.{AreSmallBefore, IsGate, IsSmallAt};
ghost use Rattle.cal_engine.specs.Looked.{is_looked, looked_at};

use crate::looked::Looked;
use crate::small::is_small;
use cal_context::{Context, Immediate, NodeNumber, Snapshot};
use cal_filter::Filter;
use cal_ql::Query;
use cal_value::{OutOfMemory, TryCopy, Variant};
use std::alloc::Global;

/// LET and WHERE of a query over records by number, whose numbers are no larger than 2^86.
#[derive(Drop)]
pub(crate) struct Gate {
    filter: Filter,
    // the numbers on the paths of the nodes before this one are small
    small: usize,
    // which immediates are looked at
    looked: Looked,
}

impl Gate {
    pub(crate) fn new(
        alloc: Global,
        query: &Query,
        context: &mut Context,
    ) -> Result<Gate, OutOfMemory>
        requires { IsValidQuery query.now }
        ensures ready { IfOk result (IsGate context.new query.now) }
        ensures grows { Grows context.old context.new }
    {
        let filter = Filter::new(alloc, query, context)?;
        let looked = Looked::new(alloc, context.seeds(), query)?;
        Ok(Gate {
            filter,
            small: 0,
            looked,
        })
    }

    /// Makes a snapshot the same as another, but for the immediates that the query doesn't look at.
    /// The memory of its texts serves again. A number above 2^86 in magnitude is answered as want
    /// of memory is.
    pub(crate) fn copy_looked(
        &mut self,
        alloc: Global,
        query: &Query,
        context: &Context,
        snapshot: &Snapshot,
        copy: &mut Snapshot,
    ) -> Result<(), OutOfMemory>
        requires { IsIn context.now snapshot.now }
        ensures within { OnOk result (IsIn context.now copy.new) }
        ensures small { OnOk result (All (λ imm. IsSmall imm.value) copy.new.imms.items) }
        ensures stays { OnOk result (IsGate context.now query.now self.old
            → IsGate context.now query.now self.new) }
        ensures looked { OnOk result (IsGate context.now query.now self.old
            → meaning context.now copy.new
            ≡ looked_at query.now (meaning context.now snapshot.now)) }
    {
        let _ = &self.filter;
        let _ = self.small;
        self.looked.catch_up(query, context)?;
        put_nodes(&mut copy.nodes, &snapshot.nodes)?;
        put_looked(alloc, &self.looked, &mut copy.imms, &snapshot.imms)?;
        Ok(())
    }

    /// Answers whether WHERE keeps a snapshot as it is, without LET.
    pub(crate) fn keeps(
        &mut self,
        context: &Context,
        snapshot: &Snapshot,
    ) -> Result<bool, OutOfMemory>
        requires { IsIn context.now snapshot.now }
        ensures stays { OnOk result ((q : AQuery) → IsGate context.now q self.old
            → IsGate context.now q self.new) }
        ensures kept { IfOk result (λ keeps. (q : AQuery) → IsGate context.now q self.old
            → keeps ≡ where_holds q.conds (meaning context.now snapshot.now)) }
    {
        let _ = self.small;
        let _ = &self.looked;
        let keeps = self.filter.keeps(context, snapshot)?;
        Ok(keeps)
    }

    /// Appends the immediates of LET to a snapshot, and answers whether WHERE keeps it. A number
    /// above 2^86 in magnitude at a node is answered as want of memory is.
    pub(crate) fn apply(
        &mut self,
        context: &Context,
        snapshot: &mut Snapshot,
    ) -> Result<bool, OutOfMemory>
        requires within { IsIn context.now snapshot.old }
        requires small { All (λ imm. IsSmall imm.value) snapshot.old.imms.items }
        ensures within { OnOk result (IsIn context.now snapshot.new) }
        ensures stays { OnOk result ((q : AQuery) → IsGate context.now q self.old
            → IsGate context.now q self.new) }
        ensures filtered { IfOk result (λ keeps. (q : AQuery) → IsGate context.now q self.old
            → IsFiltered q (meaning context.now snapshot.old) (meaning context.now snapshot.new)
            keeps) }
    {
        let _ = &self.looked;
        self.know_small(context)?;
        let keeps = self.filter.apply(context, snapshot)?;
        Ok(keeps)
    }

    /// Looks at the numbers of the nodes that are new in a context.
    fn know_small(&mut self, context: &Context) -> Result<(), OutOfMemory>
        ensures same { self.new.filter ≡ self.old.filter }
        ensures looked { self.new.looked ≡ self.old.looked }
        ensures small { OnOk result (AreSmallBefore context.now self.old.small
            → AreSmallBefore context.now (length context.now.paths)) }
        ensures next { OnOk result (AreSmallBefore context.now self.old.small
            → AreSmallBefore context.now self.new.small) }
    {
        if !are_small_from(context, self.small) {
            return Err(OutOfMemory);
        }
        self.small = context.node_count();
        Ok(())
    }
}

fn are_small_from(context: &Context, from: usize) -> bool
    ensures { IsTrue result → AreSmallBefore context.now from
        → AreSmallBefore context.now (length context.now.paths) }
{
    for place in from..context.node_count() {
        let Ok(number) = u32::try_from(place) else {
            return false;
        };
        if !has_small_entry(context, NodeNumber(number)) {
            return false;
        }
    }
    true
}

/// Whether the number of a node's own entry is small; the nodes before it are known to be so.
fn has_small_entry(context: &Context, node: NodeNumber) -> bool
    requires { node.0 < length context.now.paths }
    ensures { IsTrue result → AreSmallBefore context.now node.0 → IsSmallAt context.now node }
{
    match context.link(node) {
        Some(link) => is_small(context.value_at(link.value)),
        None => true,
    }
}

/// Puts nodes, of which a record has few, in the place of those that are there. Where as many were
/// there, the memory isn't asked for.
fn put_nodes(nodes: &mut Vec<NodeNumber>, others: &[NodeNumber]) -> Result<(), OutOfMemory>
    ensures { OnOk result (nodes.new.items ≡ others.now) }
{
    nodes.truncate(others.len());
    for (place, node) in others.iter().enumerate() {
        put_node(nodes, place, *node)?;
    }
    Ok(())
}

/// Puts a node at a place, or behind the last one.
fn put_node(nodes: &mut Vec<NodeNumber>, place: usize, node: NodeNumber) -> Result<(), OutOfMemory>
    requires { place ≤ length nodes.old.items }
    ensures front { OnOk result
        (take (place + 1) nodes.new.items ≡ take place nodes.old.items ++ node ∷ []) }
    ensures long { OnOk result
        (length nodes.new.items ≡ max (length nodes.old.items) (place + 1)) }
{
    if place < nodes.len() {
        nodes[place] = node;
    } else {
        nodes.push(node)?;
    }
    Ok(())
}

/// Puts copies of the immediates that are looked at in the place of those that are there.
fn put_looked(
    alloc: Global,
    looked: &Looked,
    imms: &mut Vec<Immediate>,
    others: &[Immediate],
) -> Result<(), OutOfMemory>
    ensures same { OnOk result
        (imms.new.items ≡ filter (λ imm. is_looked looked.now imm.attribute) others.now) }
    ensures small { OnOk result (All (λ imm. IsSmall imm.value) imms.new.items) }
{
    let mut place = 0;
    for imm in others {
        place = put_if_looked(alloc, looked, imms, place, imm)?;
    }
    shorten(imms, place);
    Ok(())
}

/// Takes the immediates behind the first ones away, which are few.
fn shorten(imms: &mut Vec<Immediate>, count: usize)
    requires { count ≤ length imms.old.items }
    ensures { imms.new.items ≡ take count imms.old.items }
{
    while imms.len() > count {
        let _ = imms.pop();
    }
}

/// Puts the copy of an immediate at a place if it is looked at, and answers the next place.
fn put_if_looked(
    alloc: Global,
    looked: &Looked,
    imms: &mut Vec<Immediate>,
    place: usize,
    imm: &Immediate,
) -> Result<usize, OutOfMemory>
    requires { place ≤ length imms.old.items }
    ensures front { IfOk result (λ next. take next imms.new.items ≡ take place imms.old.items
        ++ filter (λ imm. is_looked looked.now imm.attribute) (imm.now ∷ [])) }
    ensures within { IfOk result (λ next. next ≤ length imms.new.items) }
    ensures small { OnOk result (All (λ imm. IsSmall imm.value)
        (filter (λ imm. is_looked looked.now imm.attribute) (imm.now ∷ []))) }
{
    if !looked.has(imm.attribute) {
        return Ok(place);
    }
    put_copy(alloc, imms, place, imm)?;
    Ok(place + 1)
}

/// Puts the copy of an immediate at a place, or behind the last one.
fn put_copy(
    alloc: Global,
    imms: &mut Vec<Immediate>,
    place: usize,
    imm: &Immediate,
) -> Result<(), OutOfMemory>
    requires { place ≤ length imms.old.items }
    ensures front { OnOk result
        (take (place + 1) imms.new.items ≡ take place imms.old.items ++ imm.now ∷ []) }
    ensures long { OnOk result
        (length imms.new.items ≡ max (length imms.old.items) (place + 1)) }
    ensures small { OnOk result (IsSmall imm.now.value) }
{
    if place < imms.len() {
        copy_immediate(alloc, &mut imms[place], imm)?;
    } else {
        push_copy(alloc, imms, imm)?;
    }
    Ok(())
}

/// Puts the copy of an immediate behind the others.
#[inline(never)]
fn push_copy(alloc: Global, imms: &mut Vec<Immediate>, imm: &Immediate) -> Result<(), OutOfMemory>
    ensures pushed { OnOk result (imms.new.items ≡ imms.old.items ++ imm.now ∷ []) }
    ensures small { OnOk result (IsSmall imm.now.value) }
{
    if !is_small(&imm.value) {
        return Err(OutOfMemory);
    }
    imms.push(Immediate {
        attribute: imm.attribute,
        value: imm.value.copy(alloc)?,
    })?;
    Ok(())
}

/// Makes an immediate the same as another.
fn copy_immediate(alloc: Global, imm: &mut Immediate, other: &Immediate) -> Result<(), OutOfMemory>
    ensures same { OnOk result (imm.new ≡ other.now) }
    ensures small { OnOk result (IsSmall other.now.value) }
{
    imm.attribute = other.attribute;
    copy_value(alloc, &mut imm.value, &other.value)
}

/// Makes a value the same as another. A number is written in place.
fn copy_value(alloc: Global, value: &mut Variant, other: &Variant) -> Result<(), OutOfMemory>
    ensures same { OnOk result (value.new ≡ other.now) }
    ensures small { OnOk result (IsSmall other.now) }
{
    match other {
        Variant::Int(number) if is_small(other) => *value = Variant::Int(*number),
        Variant::Uint(number) => *value = Variant::Uint(*number),
        Variant::Fixed(nanos) if is_small(other) => *value = Variant::Fixed(*nanos),
        _ => return copy_other(alloc, value, other),
    }
    Ok(())
}

/// The same, for a value of any kind.
#[inline(never)]
fn copy_other(alloc: Global, value: &mut Variant, other: &Variant) -> Result<(), OutOfMemory>
    ensures same { OnOk result (value.new ≡ other.now) }
    ensures small { OnOk result (IsSmall other.now) }
{
    if !is_small(other) {
        return Err(OutOfMemory);
    }
    if let Variant::Text(text) = value {
        if let Variant::Text(other) = other {
            text.truncate(0);
            return text.push_str(other.as_str());
        }
    }
    *value = other.copy(alloc)?;
    Ok(())
}
