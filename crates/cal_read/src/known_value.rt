ghost use Rattle.std.specs.Prelude.{◌≡◌, ◌<◌, ℕ, List, IfSome, Ok, length};
ghost use Rattle.cal_context.specs.Tree.{Grows};
ghost use Rattle.cal_read.specs.Held.{AreHeld};
ghost use Rattle.cal_read.specs.KnownValues.{IsKnownValue};
ghost use Rattle.cal_read.specs.NodeLines.{site_of, with_ids};
ghost use Rattle.cal_read.specs.NodeLines as lines;
ghost use Rattle.cal_read.specs.Nodes.{Named};
ghost use Rattle.cal_read.specs.Sites.{IsSite};
ghost use Rattle.cal_read.specs.Steps.{AnswersFor};

use crate::end::LineEnd;
use crate::node_line::Site;
use crate::node_texts::NodeIds;
use crate::nodes::{Held, Nodes, Place};
use crate::recent::Recent;
use cal_context::{Context, Link, ValueNumber};
use cal_value::Kind;

// the ids of built-in attributes aren't above this one
const LAST_BUILT_IN: u64 = 10;

// the most entries of a path
const MOST_DEPTH: u32 = 1024;

/// The number of the value of a new node, where that is a text that came lately, and the node is no
/// part of what an attribute is.
pub(crate) fn known_value(
    nodes: &Nodes,
    recent: &Recent,
    ids: &NodeIds,
    site: &Site,
    text: &str,
    context: &Context,
) -> Option<ValueNumber>
    requires { site.now.attribute.0 < length context.now.attributes }
    ensures { IfSome result (λ number.
        IsKnownValue context.now nodes.now ids.now site.now text.now number) }
{
    if ids.attribute <= LAST_BUILT_IN || site.above.depth >= MOST_DEPTH {
        return None;
    }
    let Kind::Str = context.attribute_at(site.attribute).kind else {
        return None;
    };
    let number = recent.number(context, text)?;
    match nodes.get(ids.id) {
        Some(_) => None,
        None => Some(number),
    }
}

/// Gives such a node its id.
pub(crate) fn put_known(
    nodes: &mut Nodes,
    ids: &NodeIds,
    site: &Site,
    number: ValueNumber,
    context: &mut Context,
) -> Result<(), LineEnd>
    requires attribute { site.now.attribute.0 < length context.old.attributes }
    requires above { site.now.above.node.0 < length context.old.paths }
    requires known { (text : List ℕ)
        × IsKnownValue context.old nodes.old ids.now site.now text number }
    ensures grows { Grows context.old context.new }
    ensures read { (text : List ℕ) (named : List Named) (s : lines.Site)
        → IsKnownValue context.old nodes.old ids.now site.now text number
        → AreHeld context.old nodes.old named → site_of named ids.now ≡ Ok s
        → IsSite context.old site.now s
        → AnswersFor (λ _. AreHeld context.new nodes.new) result (with_ids named ids.now text) }
{
    let node = context.child_by_number(Link {
        parent: site.above.node,
        attribute: site.attribute,
        value: number,
    })?;
    let held = Held {
        place: Place {
            node,
            depth: site.above.depth + 1,
            kind: site.above.kind,
            props: site.above.props,
        },
        attribute: ids.attribute,
        parent: ids.parent,
        number: None,
    };
    nodes.insert(ids.id, held)?;
    Ok(())
}
