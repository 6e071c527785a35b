ghost use Rattle.std.specs.Prelude.{◌≡◌, ◌+◌, ◌<◌, ◌≤◌, [], ◌∷◌, ◌++◌, length, take, IfOk, OnOk};
ghost use Rattle.cal_board.specs.Standing.{last_immediates, last_nodes};
ghost use Rattle.cal_value.specs.declared.variant.Variant.TheVariants as variant;

use crate::Board;
use cal_context::{AttributeNumber, Immediate, NodeNumber, Snapshot};
use cal_value::{OutOfMemory, Text, TryCopy, Variant};
use std::alloc::Global;
use std::marker::Model;

/// The immediates of the next snapshot, put one behind another over those of the snapshot before,
/// whose memory serves again. After an `Err` nothing is promised of it.
#[derive(Drop)]
pub struct Draft {
    snapshot: Snapshot,
    count: usize,
}

impl Model for Draft {
    ghost use Rattle.std.specs.Prelude.{List, ◌≤◌, length, take};
    ghost use Rattle.cal_context.specs.declared.snapshot.Immediate.{Immediate};

    ghost Value = { List Immediate };

    ghost view = { λ d. take d.count d.snapshot.imms.items };

    ghost invariant = { λ d. d.count ≤ length d.snapshot.imms.items };
}

impl Draft {
    /// No immediate. It takes no memory.
    pub fn new(alloc: Global) -> Self
        ensures { result ≡ [] }
    {
        Draft {
            snapshot: Snapshot::new(alloc),
            count: 0,
        }
    }

    /// Takes all immediates away, and keeps the memory.
    #[inline(always)]
    pub fn clear(&mut self)
        ensures { self.new ≡ [] }
    {
        self.count = 0;
    }

    /// Adds a number.
    #[inline(always)]
    pub fn push_number(&mut self, attribute: AttributeNumber, n: u64) -> Result<(), OutOfMemory>
        ensures { OnOk result (self.new
            ≡ self.old ++ record { attribute = attribute; value = variant.Uint n } ∷ []) }
    {
        put_number(attribute, n, self.count, &mut self.snapshot.imms)?;
        self.count += 1;
        Ok(())
    }

    /// Adds a copy of a value.
    #[inline(always)]
    pub fn push_copy(
        &mut self,
        alloc: Global,
        attribute: AttributeNumber,
        value: &Variant,
    ) -> Result<(), OutOfMemory>
        ensures { OnOk result (self.new
            ≡ self.old ++ record { attribute = attribute; value = value.now } ∷ []) }
    {
        put_copy(alloc, attribute, value, self.count, &mut self.snapshot.imms)?;
        self.count += 1;
        Ok(())
    }

    /// Adds the last values of the as-value slots of a board, in the order of the slots, each copied
    /// under the number of its attribute.
    #[inline(always)]
    pub fn push_values<N>(&mut self, alloc: Global, board: &Board<N>) -> Result<(), OutOfMemory>
        ensures { OnOk result (self.new ≡ self.old ++ last_immediates board.now) }
    {
        for slot in board.as_values() {
            if let Some(last) = slot.opened.as_slice().last() {
                self.push_copy(alloc, AttributeNumber(last.attribute), &last.value)?;
            }
        }
        Ok(())
    }

    /// The snapshot with these immediates, and with the last nodes of the reference slots of two
    /// boards, in the order of the slots.
    #[inline(always)]
    pub fn finish(
        &mut self,
        first: &Board<NodeNumber>,
        second: &Board<NodeNumber>,
    ) -> Result<&Snapshot, OutOfMemory>
        ensures nodes { IfOk result
            (λ s. s.now.nodes.items ≡ last_nodes first.now ++ last_nodes second.now) }
        ensures imms { IfOk result (λ s. s.now.imms.items ≡ self.old) }
    {
        if self.snapshot.imms.len() > self.count {
            self.snapshot.imms.truncate(self.count);
        }
        let count = put_nodes(first, 0, &mut self.snapshot.nodes)?;
        let count = put_nodes(second, count, &mut self.snapshot.nodes)?;
        self.snapshot.nodes.truncate(count);
        Ok(&self.snapshot)
    }
}

/// Puts the last nodes of a board's reference slots in the places from one on, or behind the last
/// ones. Gives the place behind them.
#[inline(always)]
fn put_nodes(
    board: &Board<NodeNumber>,
    from: usize,
    nodes: &mut Vec<NodeNumber>,
) -> Result<usize, OutOfMemory>
    requires { from ≤ length nodes.old.items }
    ensures put { IfOk result (λ end. take end nodes.new.items
        ≡ take from nodes.old.items ++ last_nodes board.now) }
    ensures within { IfOk result (λ end. end ≤ length nodes.new.items) }
{
    let mut place = from;
    for slot in board.references() {
        if let Some(last) = slot.opened.as_slice().last() {
            put_node(last.value, place, nodes)?;
            place += 1;
        }
    }
    Ok(place)
}

/// Puts a node in the place of another, or behind the last one.
#[inline(always)]
fn put_node(node: NodeNumber, place: usize, nodes: &mut Vec<NodeNumber>) -> Result<(), OutOfMemory>
    requires { place ≤ length nodes.old.items }
    ensures put { OnOk result
        (take (place + 1) nodes.new.items ≡ take place nodes.old.items ++ node ∷ []) }
    ensures within { OnOk result (place < length nodes.new.items) }
{
    if place < nodes.len() {
        nodes[place] = node;
    } else {
        nodes.push(node)?;
    }
    Ok(())
}

/// Puts a number in the place of an immediate, or behind the last one.
#[inline(always)]
fn put_number(
    attribute: AttributeNumber,
    n: u64,
    place: usize,
    imms: &mut Vec<Immediate>,
) -> Result<(), OutOfMemory>
    requires { place ≤ length imms.old.items }
    ensures put { OnOk result (take (place + 1) imms.new.items
        ≡ take place imms.old.items ++ record { attribute = attribute; value = variant.Uint n } ∷ []) }
    ensures within { OnOk result (place < length imms.new.items) }
    ensures room { length imms.old.items ≤ length imms.new.items }
{
    if place < imms.len() {
        let imm = &mut imms[place];
        imm.attribute = attribute;
        number_over(n, &mut imm.value);
        Ok(())
    } else {
        add_number(attribute, n, imms)
    }
}

#[inline(never)]
fn add_number(
    attribute: AttributeNumber,
    n: u64,
    imms: &mut Vec<Immediate>,
) -> Result<(), OutOfMemory>
    ensures added { OnOk result (imms.new.items
        ≡ imms.old.items ++ record { attribute = attribute; value = variant.Uint n } ∷ []) }
    ensures room { length imms.old.items ≤ length imms.new.items }
{
    let value = Variant::Uint(n);
    imms.push(Immediate { attribute, value })?;
    Ok(())
}

/// Puts a number in the place of a value.
#[inline(always)]
fn number_over(n: u64, value: &mut Variant)
    ensures { value.new ≡ variant.Uint n }
{
    if let Variant::Uint(number) = value {
        *number = n;
    } else {
        number_instead(n, value);
    }
}

#[inline(never)]
fn number_instead(n: u64, value: &mut Variant)
    ensures { value.new ≡ variant.Uint n }
{
    *value = Variant::Uint(n);
}

/// Puts a copy of a value in the place of an immediate, or behind the last one.
#[inline(always)]
fn put_copy(
    alloc: Global,
    attribute: AttributeNumber,
    value: &Variant,
    place: usize,
    imms: &mut Vec<Immediate>,
) -> Result<(), OutOfMemory>
    requires { place ≤ length imms.old.items }
    ensures put { OnOk result (take (place + 1) imms.new.items
        ≡ take place imms.old.items ++ record { attribute = attribute; value = value.now } ∷ []) }
    ensures within { OnOk result (place < length imms.new.items) }
    ensures room { length imms.old.items ≤ length imms.new.items }
{
    if place < imms.len() {
        let imm = &mut imms[place];
        imm.attribute = attribute;
        copy_over(alloc, value, &mut imm.value)
    } else {
        add_copy(alloc, attribute, value, imms)
    }
}

#[inline(never)]
fn add_copy(
    alloc: Global,
    attribute: AttributeNumber,
    value: &Variant,
    imms: &mut Vec<Immediate>,
) -> Result<(), OutOfMemory>
    ensures added { OnOk result (imms.new.items
        ≡ imms.old.items ++ record { attribute = attribute; value = value.now } ∷ []) }
    ensures room { length imms.old.items ≤ length imms.new.items }
{
    let value = value.copy(alloc)?;
    imms.push(Immediate { attribute, value })?;
    Ok(())
}

/// Makes a value the same as another. The memory of a text serves again.
#[inline(always)]
fn copy_over(alloc: Global, value: &Variant, copy: &mut Variant) -> Result<(), OutOfMemory>
    ensures { OnOk result (copy.new ≡ value.now) }
{
    if let Variant::Int(copy) = copy {
        if let Variant::Int(number) = value {
            *copy = *number;
            return Ok(());
        }
    }
    if let Variant::Text(copy) = copy {
        if let Variant::Text(text) = value {
            return text_over(text, copy);
        }
    }
    copy_instead(alloc, value, copy)
}

#[inline(never)]
fn text_over(text: &Text, copy: &mut Text) -> Result<(), OutOfMemory>
    ensures { OnOk result (copy.new ≡ text.now) }
{
    copy.truncate(0);
    copy.push_str(text.as_str())
}

#[inline(never)]
fn copy_instead(alloc: Global, value: &Variant, copy: &mut Variant) -> Result<(), OutOfMemory>
    ensures { OnOk result (copy.new ≡ value.now) }
{
    *copy = value.copy(alloc)?;
    Ok(())
}
