ghost use Rattle.std.specs.Prelude.{◌≡◌, ◌<◌, length, map, IfOk};
ghost use Rattle.std.specs.List.{All};
ghost use Rattle.cal_context.specs.Snapshots.{IsIn, entry_of, meaning};
ghost use Rattle.cal_context.specs.Tree.{path_at};

use crate::{Context, Immediate, NodeNumber, Snapshot};
use cal_value::{Entry, OutOfMemory, Rec, Seq, TryCopy};
use std::alloc::Global;

/// The record that a snapshot means, with entries of its own.
pub fn expand(alloc: Global, context: &Context, snapshot: &Snapshot) -> Result<Rec, OutOfMemory>
    requires { IsIn context.now snapshot.now }
    ensures { IfOk result (λ r. r ≡ meaning context.now snapshot.now) }
{
    Ok(Rec {
        paths: expand_nodes(alloc, context, &snapshot.nodes)?,
        imms: expand_immediates(alloc, context, &snapshot.imms)?,
    })
}

fn expand_nodes(
    alloc: Global,
    context: &Context,
    nodes: &[NodeNumber],
) -> Result<Seq<Seq<Entry>>, OutOfMemory>
    requires { All (λ n. n.0 < length context.now.paths) nodes.now }
    ensures { IfOk result (λ paths. paths ≡ map (path_at context.now) nodes.now) }
{
    let mut paths = Vec::with_capacity(alloc, nodes.len())?;
    for node in nodes {
        paths.push(expand_node(alloc, context, *node)?)?;
    }
    Ok(Seq::from_vec(paths))
}

// The path of a node, gathered on the way up to the root, and then turned round.
fn expand_node(
    alloc: Global,
    context: &Context,
    node: NodeNumber,
) -> Result<Seq<Entry>, OutOfMemory>
    requires { node.0 < length context.now.paths }
    ensures { IfOk result (λ path. path ≡ path_at context.now node) }
{
    let mut path = Vec::new(alloc);
    let mut node = node;
    while let Some(link) = context.link(node) {
        path.push(Entry {
            attr: context.attribute_at(link.attribute).copy(alloc)?,
            value: context.value_at(link.value).copy(alloc)?,
        })?;
        node = link.parent;
    }
    path.reverse();
    Ok(Seq::from_vec(path))
}

fn expand_immediates(
    alloc: Global,
    context: &Context,
    imms: &[Immediate],
) -> Result<Seq<Entry>, OutOfMemory>
    requires { All (λ i. i.attribute.0 < length context.now.attributes) imms.now }
    ensures { IfOk result (λ entries. entries ≡ map (entry_of context.now) imms.now) }
{
    let mut entries = Vec::with_capacity(alloc, imms.len())?;
    for imm in imms {
        entries.push(Entry {
            attr: context.attribute_at(imm.attribute).copy(alloc)?,
            value: imm.value.copy(alloc)?,
        })?;
    }
    Ok(Seq::from_vec(entries))
}
