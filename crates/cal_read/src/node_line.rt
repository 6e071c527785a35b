ghost use Rattle.std.specs.Prelude.{◌≡◌, ◌==◌, ◌&&◌, ◌<◌, List, IfOk, length, nat_eq};
ghost use Rattle.std.specs.Option.{option_eq};
ghost use Rattle.std.specs.Ordering.{eq_by_cmp};
ghost use Rattle.cal_value.specs.Order.{value_cmp};
ghost use Rattle.cal_context.specs.Snapshots.{IsBelowRoot};
ghost use Rattle.cal_context.specs.Tree.{Grows, attribute_at};
ghost use Rattle.cal_read.specs.Held.{AreHeld, HoldsSome, IsHeld};
ghost use Rattle.cal_read.specs.NodeLines.{node_step, node_value, same_content, site_of, with_ids};
ghost use Rattle.cal_read.specs.NodeLines.{with_node};
ghost use Rattle.cal_read.specs.Nodes.{Named, Node, node_at};
ghost use Rattle.cal_read.specs.Sites.{IsSite, IsToBe};
ghost use Rattle.cal_read.specs.Steps.{Answers, AnswersFor};

use crate::StreamKind;
use crate::built_in::BuiltIn;
use crate::end::LineEnd;
use crate::known_value::{known_value, put_known};
use crate::node_texts::{NodeIds, ids_of, texts_of};
use crate::nodes::{Held, Nodes, Place};
use crate::place::{misfit, number_of, place_below, props_in, root};
use crate::recent::Recent;
use cal_context::{AttributeNumber, Context};
use cal_line::Fields;
use cal_value::{OutOfMemory, ValueFault, Variant, parse_value};
use std::alloc::Global;

/// Where a node is to stand: its attribute, and the place above it.
#[derive(Clone, Copy, Debug)]
pub(crate) struct Site {
    pub(crate) attribute: AttributeNumber,
    pub(crate) above: Place,
}

/// Reads a `node` line. After an `Err` the nodes are of no more use.
pub(crate) fn read_node(
    alloc: Global,
    nodes: &mut Nodes,
    recent: &mut Recent,
    fields: &Fields,
    context: &mut Context,
) -> Result<(), LineEnd>
    requires { HoldsSome context.old nodes.old }
    ensures grows { Grows context.old context.new }
    ensures read { (named : List Named) → AreHeld context.old nodes.old named
        → AnswersFor (λ _. AreHeld context.new nodes.new) result (node_step named fields.now) }
{
    let texts = texts_of(alloc, fields)?;
    let ids = ids_of(alloc, &texts)?;
    let text = texts.value.text(alloc)?;
    add_node(alloc, nodes, recent, &ids, text.as_str(), context)
}

/// Adds the node of these ids and this text. After an `Err` the nodes are of no more use.
pub(crate) fn add_node(
    alloc: Global,
    nodes: &mut Nodes,
    recent: &mut Recent,
    ids: &NodeIds,
    text: &str,
    context: &mut Context,
) -> Result<(), LineEnd>
    requires { HoldsSome context.old nodes.old }
    ensures grows { Grows context.old context.new }
    ensures read { (named : List Named) → AreHeld context.old nodes.old named
        → AnswersFor (λ _. AreHeld context.new nodes.new) result (with_ids named ids.now text.now) }
{
    let site = site_of(nodes, ids, context)?;
    match known_value(nodes, recent, ids, &site, text, context) {
        Some(number) => return put_known(nodes, ids, &site, number, context),
        None => {}
    }
    let value = node_value(alloc, context, ids.attribute, site.attribute, text)?;
    if let Some(kind) = misfit(ids.attribute, &site.above) {
        return Err(LineEnd::Bad(kind));
    }
    let result = put_node(alloc, nodes, ids, &site, &value, context);
    note_value(nodes, recent, ids.id, text, context);
    result
}

/// Keeps the number of a node's value. Where memory runs out, it isn't kept.
fn note_value(nodes: &Nodes, recent: &mut Recent, id: u64, text: &str, context: &Context) {
    if let Some(node) = nodes.node(id) {
        let _ = recent.note(context, node, text);
    }
}

/// The attribute and the place above, of these ids.
fn site_of(nodes: &Nodes, ids: &NodeIds, context: &Context) -> Result<Site, LineEnd>
    ensures { (named : List Named) → AreHeld context.now nodes.now named
        → AnswersFor (IsSite context.now) result (site_of named ids.now) }
{
    let Some(attribute) = nodes.get(ids.attribute) else {
        return Err(LineEnd::Bad(StreamKind::UnknownNode));
    };
    let above = match ids.parent {
        Some(id) => {
            let Some(parent) = nodes.get(id) else {
                return Err(LineEnd::Bad(StreamKind::UnknownNode));
            };
            parent.place
        }
        None => root(context),
    };
    let Some(number) = attribute.number else {
        return Err(LineEnd::Bad(StreamKind::NotAttribute));
    };
    Ok(Site {
        attribute: number,
        above,
    })
}

/// The value that a text has.
fn node_value(
    alloc: Global,
    context: &Context,
    id: u64,
    number: AttributeNumber,
    text: &str,
) -> Result<Variant, LineEnd>
    requires { number.0 < length context.now.attributes }
    ensures { Answers result (node_value id (attribute_at context.now number) text.now) }
{
    match parse_value(alloc, context.attribute_at(number).kind, text) {
        Ok(value) => {
            if id == BuiltIn::OfProps.id() && props_in(&value).is_none() {
                return Err(LineEnd::Bad(StreamKind::BadValue));
            }
            Ok(value)
        }
        Err(ValueFault::BadValue) => Err(LineEnd::Bad(StreamKind::BadValue)),
        Err(ValueFault::OutOfMemory) => Err(LineEnd::OutOfMemory),
    }
}

/// Gives a node its id, or sees that what has the id is the same.
fn put_node(
    alloc: Global,
    nodes: &mut Nodes,
    ids: &NodeIds,
    site: &Site,
    value: &Variant,
    context: &mut Context,
) -> Result<(), LineEnd>
    requires attribute { site.now.attribute.0 < length context.old.attributes }
    requires above { site.now.above.node.0 < length context.old.paths }
    requires depth { site.now.above.depth < 1024 }
    requires held { HoldsSome context.old nodes.old }
    ensures grows { Grows context.old context.new }
    ensures read { (named : List Named) (n : Node) → AreHeld context.old nodes.old named
        → IsToBe context.old ids.now site.now value.now n
        → AnswersFor (λ _. AreHeld context.new nodes.new) result
        (with_node named ids.now.id n (node_at named ids.now.id)) }
{
    match nodes.get(ids.id) {
        Some(old) => {
            if has_content(&old, ids, value, context) {
                Ok(())
            } else {
                Err(LineEnd::Bad(StreamKind::Redefined))
            }
        }
        None => {
            let held = held_there(alloc, ids, site, value, context)?;
            nodes.insert(ids.id, held)?;
            Ok(())
        }
    }
}

/// Whether a node that is held has this content.
fn has_content(old: &Held, ids: &NodeIds, value: &Variant, context: &Context) -> bool
    requires { IsBelowRoot context.now old.now.place.node }
    ensures { (n : Node) (m : Node) → IsHeld context.now old.now n
        → (m.own.attribute ≡ ids.now.attribute) → (m.own.entry.value ≡ value.now)
        → (m.parent ≡ ids.now.parent) → result ≡ same_content m n }
{
    if has_ids(old, ids) {
        return has_value(old, value, context);
    }
    false
}

fn has_ids(old: &Held, ids: &NodeIds) -> bool
    ensures { result ≡ ((ids.now.attribute == old.now.attribute)
        && option_eq nat_eq ids.now.parent old.now.parent) }
{
    ids.attribute == old.attribute && ids.parent == old.parent
}

fn has_value(old: &Held, value: &Variant, context: &Context) -> bool
    requires { IsBelowRoot context.now old.now.place.node }
    ensures { (n : Node) → IsHeld context.now old.now n
        → result ≡ eq_by_cmp value_cmp value.now n.own.entry.value }
{
    match context.link(old.place.node) {
        Some(link) => *value == *context.value_at(link.value),
        None => false,
    }
}

/// What is held of a new node.
pub(crate) fn held_there(
    alloc: Global,
    ids: &NodeIds,
    site: &Site,
    value: &Variant,
    context: &mut Context,
) -> Result<Held, OutOfMemory>
    requires attribute { site.now.attribute.0 < length context.old.attributes }
    requires above { site.now.above.node.0 < length context.old.paths }
    requires depth { site.now.above.depth < 1024 }
    ensures grows { Grows context.old context.new }
    ensures held { IfOk result (λ held. (n : Node)
        → IsToBe context.old ids.now site.now value.now n → IsHeld context.new held n) }
{
    let node = context.child(site.above.node, site.attribute, value)?;
    let number = number_of(alloc, ids.attribute, value, &site.above, context)?;
    Ok(Held {
        place: place_below(&site.above, ids.attribute, value, node),
        attribute: ids.attribute,
        parent: ids.parent,
        number,
    })
}
