ghost use Rattle.std.specs.Prelude.{◌≡◌, IfOk, IfSome, IsTrue, Some, slice_get};
ghost use Rattle.cal_read.specs.Shared.{Gains, held_if, held_of, shared_of};

use crate::nodes::{Held, Place};
use cal_context::{AttributeNumber, NodeNumber};
use cal_value::{Kind, OutOfMemory};

// what a node shares is looked for among so many that were noted last
const NEAR: usize = 16;

/// What a node shares with others: the id of its attribute, what an attribute has below it, and the
/// attribute that it is.
#[derive(Clone, Copy, Debug)]
pub(crate) struct Shared {
    pub(crate) attribute: u64,
    pub(crate) kind: Option<Kind>,
    pub(crate) props: u32,
    pub(crate) number: Option<AttributeNumber>,
}

/// What a node has of its own, and the place of what it shares. It has a parent where its depth
/// isn't 1.
#[derive(Clone, Copy, Debug)]
pub(crate) struct Own {
    pub(crate) node: NodeNumber,
    pub(crate) parent: u32,
    pub(crate) depth: u16,
    pub(crate) shared: u16,
}

/// What a node has of its own and what it shares, together.
pub(crate) fn held_of(own: &Own, shared: &Shared) -> Held
    ensures { result ≡ held_of own.now shared.now }
{
    Held {
        place: Place {
            node: own.node,
            depth: u32::from(own.depth),
            kind: shared.kind,
            props: shared.props,
        },
        attribute: shared.attribute,
        parent: if own.depth == 1 {
            None
        } else {
            Some(u64::from(own.parent))
        },
        number: shared.number,
    }
}

/// What a node has of its own, where that fits. What it shares is noted.
pub(crate) fn own_of(all: &mut Vec<Shared>, held: &Held) -> Result<Option<Own>, OutOfMemory>
    ensures gains { Gains all.old.items all.new.items }
    ensures own { IfOk result (λ fitting. IfSome fitting (λ own.
        held_if all.new.items (Some own) ≡ Some held.now)) }
{
    if held.parent.is_none() != (held.place.depth == 1) {
        return Ok(None);
    }
    let Ok(depth) = u16::try_from(held.place.depth) else {
        return Ok(None);
    };
    let Ok(parent) = u32::try_from(held.parent.unwrap_or(0)) else {
        return Ok(None);
    };
    let Some(shared) = place_of(all, &shared_of(held))? else {
        return Ok(None);
    };
    Ok(Some(Own {
        node: held.place.node,
        parent,
        depth,
        shared,
    }))
}

fn shared_of(held: &Held) -> Shared
    ensures { result ≡ shared_of held.now }
{
    Shared {
        attribute: held.attribute,
        kind: held.place.kind,
        props: held.place.props,
        number: held.number,
    }
}

/// The place of what a node shares, which is noted where it isn't near the end.
fn place_of(all: &mut Vec<Shared>, shared: &Shared) -> Result<Option<u16>, OutOfMemory>
    ensures gains { Gains all.old.items all.new.items }
    ensures place { IfOk result (λ fitting. IfSome fitting (λ place.
        slice_get all.new.items place ≡ Some shared.now)) }
{
    if let Some(place) = near(all.as_slice(), shared) {
        return Ok(Some(place));
    }
    let Ok(place) = u16::try_from(all.len()) else {
        return Ok(None);
    };
    all.push(*shared)?;
    Ok(Some(place))
}

/// The place of what a node shares, among those that were noted last.
fn near(all: &[Shared], shared: &Shared) -> Option<u16>
    ensures { IfSome result (λ place. slice_get all.now place ≡ Some shared.now) }
{
    let mut place = all.len();
    let least = all.len().saturating_sub(NEAR);
    while place > least {
        place -= 1;
        if is_same(&all[place], shared) {
            let Ok(found) = u16::try_from(place) else {
                return None;
            };
            return Some(found);
        }
    }
    None
}

fn is_same(one: &Shared, other: &Shared) -> bool
    ensures { IsTrue result → one.now ≡ other.now }
{
    if one.attribute != other.attribute {
        return false;
    }
    if one.props != other.props {
        return false;
    }
    if !is_same_kind(one.kind, other.kind) {
        return false;
    }
    is_same_number(one.number, other.number)
}

fn is_same_kind(one: Option<Kind>, other: Option<Kind>) -> bool
    ensures { IsTrue result → one ≡ other }
{
    match (one, other) {
        (Some(one), Some(other)) => one == other,
        (None, None) => true,
        _ => false,
    }
}

fn is_same_number(one: Option<AttributeNumber>, other: Option<AttributeNumber>) -> bool
    ensures { IsTrue result → one ≡ other }
{
    match (one, other) {
        (Some(one), Some(other)) => one == other,
        (None, None) => true,
        _ => false,
    }
}
