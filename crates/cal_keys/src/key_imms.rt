//! What the names of GROUP BY take of the immediates of a record.
ghost use Rattle.std.specs.Prelude.{ℕ, ◌<◌, false, List, length, map, IfOk, OnOk};
ghost use Rattle.std.specs.List.{All};
ghost use Rattle.cal_context.specs.Snapshots.{entry_of};
ghost use Rattle.cal_context.specs.Tree.{Grows, Tree};
ghost use Rattle.cal_value.specs.Flat.{joined as joined_paths};
ghost use Rattle.cal_keys.specs.Groups.{taken};
ghost use Rattle.cal_keys.specs.Sieves.{IsReadySieve};
ghost use Rattle.cal_keys.specs.TakenImms.{AreTaken, IsTakenIn, taken_entry};
ghost use Rattle.cal_keys.specs.Takers.{KnowsTakers};
ghost use Rattle.cal_keys.specs.Leading.{Leads};

use crate::sieve::Sieve;
use crate::stepping::step_near;
use cal_context::{Context, Immediate, NodeNumber};
use cal_value::OutOfMemory;
use std::alloc::Global;

/// An immediate that is taken, and the place of the name that takes it.
#[derive(Drop)]
pub(crate) struct TakenImm<'a> {
    place: u32,
    imm: &'a Immediate,
}

/// The node of what the names take of immediates. It may be `near`, which saves look-ups then.
pub(crate) fn key_imms(
    alloc: Global,
    context: &Context,
    sieve: &Sieve,
    own: &mut Context,
    imms: &[Immediate],
    near: NodeNumber,
) -> Result<NodeNumber, OutOfMemory>
    requires { All (λ i. i.attribute.0 < length context.now.attributes) imms.now }
    ensures leads { IfOk result (λ n. (t : Tree) (names : List (List ℕ))
        → IsReadySieve context.now t names sieve.now → Leads own.new (joined_paths
        (taken false names (map (entry_of context.now) imms.now))) n) }
    ensures grows { OnOk result (Grows own.old own.new) }
{
    own.has_each_once();
    let mut taken = taken_imms(alloc, sieve, imms)?;
    taken.sort_by_key(|one| one.place)?;
    let node = step_all(context, own, &taken, near)?;
    Ok(node)
}

/// The immediates that the names take, as they come.
fn taken_imms<'a>(
    alloc: Global,
    sieve: &Sieve,
    imms: &'a [Immediate],
) -> Result<Vec<TakenImm<'a>>, OutOfMemory>
    ensures within { IfOk result (λ taken. (t : Tree)
        → All (λ i. i.attribute.0 < length t.attributes) imms.now
        → All (IsTakenIn t) taken.items) }
    ensures taken { IfOk result (λ taken. (t : Tree) (names : List (List ℕ))
        → KnowsTakers t names sieve.now.takers
        → All (λ i. i.attribute.0 < length t.attributes) imms.now
        → AreTaken t names imms.now taken.items) }
{
    let mut taken = Vec::new(alloc);
    for imm in imms {
        if let Some(place) = sieve.beside(imm.attribute) {
            taken.push(TakenImm { place, imm })?;
        }
    }
    Ok(taken)
}

/// The node to which the entries of immediates lead.
fn step_all(
    context: &Context,
    own: &mut Context,
    taken: &[TakenImm],
    near: NodeNumber,
) -> Result<NodeNumber, OutOfMemory>
    requires { All (IsTakenIn context.now) taken.now }
    ensures leads { IfOk result (Leads own.new (map (taken_entry context.now) taken.now)) }
    ensures grows { OnOk result (Grows own.old own.new) }
{
    own.has_each_once();
    let mut node = NodeNumber::ROOT;
    for one in taken {
        let attribute = context.attribute_at(one.imm.attribute);
        node = step_near(own, node, attribute, &one.imm.value, near)?;
    }
    Ok(node)
}
