//! A condition asked of the entries of snapshots by number: once of each node's, and of the
//! immediates that have its name.
ghost use Rattle.std.specs.Prelude.{◌≡◌, ◌<◌, length, map, take, slice_index_or, false, IfOk};
ghost use Rattle.std.specs.List.{All, list_any};
ghost use Rattle.cal_context.specs.Snapshots.{entry_of};
ghost use Rattle.cal_context.specs.Tree.{attribute_at, path_at};
ghost use Rattle.cal_trigger.specs.Deciding.{speaks_of};
ghost use Rattle.cal_watch.specs.Asking.{all_named, holds_on};

use crate::asker::Asker;
use crate::decider::Decider;
use cal_context::{AttributeNumber, Context, Immediate, NodeNumber};
use cal_value::{OutOfMemory, Variant};

/// What is kept of a number, or else false.
fn kept_at(answers: &[bool], number: u32) -> bool
    ensures { result ≡ slice_index_or answers.now number false }
{
    answers.get(number as usize).copied().unwrap_or(false)
}

/// Whether an entry has the condition's name and passes its test. `named` says which attributes have
/// the name; about those of another name nobody is asked.
fn speaks_of<D: Decider + Drop>(
    asker: &mut Asker<D>,
    named: &[bool],
    context: &Context,
    attribute: AttributeNumber,
    value: &Variant,
) -> Result<bool, OutOfMemory>
    requires { attribute.0 < length context.now.attributes }
    ensures { IfOk result (λ speaks. named.now ≡ all_named D.condition context.now
        → speaks ≡ speaks_of D.condition
        (record { attr = attribute_at context.now attribute; value = value.now })) }
{
    if !kept_at(named, attribute.0) {
        return Ok(false);
    }
    asker.ask(context.attribute_at(attribute), value)
}

/// Whether some entry of a node's path is such. `holding` says it of the nodes before.
pub(crate) fn holds_at<D: Decider + Drop>(
    asker: &mut Asker<D>,
    named: &[bool],
    holding: &[bool],
    context: &Context,
    node: NodeNumber,
) -> Result<bool, OutOfMemory>
    requires { node.0 < length context.now.paths }
    ensures { IfOk result (λ holds. named.now ≡ all_named D.condition context.now
        → holding.now ≡ map (holds_on D.condition) (take node.0 context.now.paths)
        → holds ≡ holds_on D.condition (path_at context.now node)) }
{
    let Some(link) = context.link(node) else {
        return Ok(false);
    };
    if kept_at(holding, link.parent.0) {
        return Ok(true);
    }
    speaks_of(
        asker,
        named,
        context,
        link.attribute,
        context.value_at(link.value),
    )
}

/// Whether it is kept of one of these nodes that its path has such an entry.
pub(crate) fn holds_on_nodes(holding: &[bool], nodes: &[NodeNumber]) -> bool
    ensures { result ≡ list_any (λ n. slice_index_or holding.now n.0 false) nodes.now }
{
    for node in nodes {
        if kept_at(holding, node.0) {
            return true;
        }
    }
    false
}

/// Whether one of these immediates is such an entry.
pub(crate) fn holds_on_immediates<D: Decider + Drop>(
    asker: &mut Asker<D>,
    named: &[bool],
    context: &Context,
    imms: &[Immediate],
) -> Result<bool, OutOfMemory>
    requires { All (λ i. i.attribute.0 < length context.now.attributes) imms.now }
    ensures { IfOk result (λ holds. named.now ≡ all_named D.condition context.now
        → holds ≡ holds_on D.condition (map (entry_of context.now) imms.now)) }
{
    for imm in imms {
        if speaks_of(asker, named, context, imm.attribute, &imm.value)? {
            return Ok(true);
        }
    }
    Ok(false)
}
