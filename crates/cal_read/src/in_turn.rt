ghost use Rattle.std.specs.Prelude.{◌≡◌, ◌==◌, ◌+◌, ◌<◌, ◌≤◌, ℕ, Some, None, length};
ghost use Rattle.std.specs.Prelude.{IfOk, IfSome, IsSomeAnd, MatchOption, OnErr, OnOk};
ghost use Rattle.std.specs.Prelude.{if◌then◌else◌, slice_index_or};
ghost use Rattle.cal_read.specs.declared.shared.Own.{Own};

use crate::nodes::Held;
use crate::shared::{Own, Shared, held_of, own_of};
use cal_context::{AttributeNumber, NodeNumber};
use cal_value::OutOfMemory;
use std::alloc::Global;

/// Nodes whose ids come in turn, but for single gaps, in few bytes each.
#[derive(Drop)]
pub(crate) struct InTurn {
    row: Vec<Option<Own>>,
    shared: Vec<Shared>,
    ghost within: { (id : ℕ) (own : Own) → slice_index_or row.items id None ≡ Some own
        → own.shared < length shared.items },
}

impl InTurn {
    ghost use Rattle.cal_read.specs.InTurn.{in_turn_at};

    /// No node. It takes no memory.
    pub(crate) fn new(alloc: Global) -> InTurn
        ensures { (id : ℕ) → in_turn_at result id ≡ None }
    {
        InTurn {
            row: Vec::new(alloc),
            shared: Vec::new(alloc),
        }
    }

    /// What is known of the node of an id.
    #[inline(always)]
    pub(crate) fn get(&self, id: u64) -> Option<Held>
        ensures { result ≡ in_turn_at self.now id }
    {
        let own = there(self.row.as_slice(), id)?;
        Some(held_of(own, &self.shared.as_slice()[own.shared as usize]))
    }

    /// The node of the context that is known under an id. Nothing else is copied.
    #[inline(always)]
    pub(crate) fn node(&self, id: u64) -> Option<NodeNumber>
        ensures { IfSome result (λ node.
            IsSomeAnd (in_turn_at self.now id) (λ held. held.place.node ≡ node)) }
    {
        Some(there(self.row.as_slice(), id)?.node)
    }

    /// The attribute that the node of an id is. Nothing else is copied.
    #[inline(always)]
    pub(crate) fn number(&self, id: u64) -> Option<AttributeNumber>
        ensures { IfSome result (λ number.
            IsSomeAnd (in_turn_at self.now id) (λ held. held.number ≡ Some number)) }
    {
        let own = there(self.row.as_slice(), id)?;
        self.shared.as_slice()[own.shared as usize].number
    }

    /// Notes a node in place of what its id had. Where it doesn't fit, none is noted there.
    pub(crate) fn put(&mut self, id: u64, held: &Held) -> Result<bool, OutOfMemory>
        ensures { IfOk result (λ fits. (other : ℕ) → in_turn_at self.new other
            ≡ (if id == other then (if fits then Some held.now else None)
            else in_turn_at self.old other)) }
    {
        let place = id as usize;
        if place > self.row.len() + 1 {
            return Ok(false);
        }
        let own = own_of(&mut self.shared, held)?;
        put_own(&mut self.row, place, own)?;
        Ok(own.is_some())
    }
}

/// What a row has at the place of an id.
#[inline(always)]
fn there(row: &[Option<Own>], id: u64) -> Option<&Own>
    ensures { MatchOption result (slice_index_or row.now id None ≡ None)
        (λ own. slice_index_or row.now id None ≡ Some own.now) }
{
    row.get(id as usize)?.as_ref()
}

/// Puts something into a row that is so long, or one shorter, or longer.
fn put_own(row: &mut Vec<Option<Own>>, place: usize, own: Option<Own>) -> Result<(), OutOfMemory>
    requires { place ≤ length row.old.items + 1 }
    ensures put { OnOk result ((other : ℕ) → slice_index_or row.new.items other None
        ≡ (if place == other then own else slice_index_or row.old.items other None)) }
    ensures left { OnErr result ((other : ℕ) → slice_index_or row.new.items other None
        ≡ slice_index_or row.old.items other None) }
{
    if place < row.len() {
        row[place] = own;
        return Ok(());
    }
    if place > row.len() {
        row.push(None)?;
    }
    row.push(own)?;
    Ok(())
}
