ghost use Rattle.std.specs.Prelude.{◌≡◌, List, [], ◌++◌, IfOk, OnOk, map, reverse};
ghost use Rattle.cal_context.specs.Tree.{Grows};
ghost use Rattle.cal_value.specs.Kinds.{every_kind};
ghost use Rattle.cal_read.specs.BuiltIn.{built_in, built_in_attribute, built_in_id};
ghost use Rattle.cal_read.specs.BuiltIn.{every_built_in, named_built_in, named_kind};
ghost use Rattle.cal_read.specs.BuiltIn.{node_of_built_in, node_of_kind};
ghost use Rattle.cal_read.specs.Held.{AreHeld, IsHeld};
ghost use Rattle.cal_read.specs.Nodes.{Named};

use crate::node_line::{Site, held_there};
use crate::node_texts::NodeIds;
use crate::nodes::{Held, Nodes};
use crate::place::root;
use cal_context::Context;
use cal_value::{Attribute, Kind, OutOfMemory, Props, Text, Variant};
use std::alloc::Global;

/// The attributes that say what an attribute is.
#[derive(Clone, Copy, Debug)]
pub(crate) enum BuiltIn {
    OfNames,
    OfKinds,
    OfProps,
}

impl BuiltIn {
    /// The id of the attribute's node in every stream.
    pub(crate) fn id(self) -> u64
        ensures { result ≡ built_in_id self }
    {
        match self {
            BuiltIn::OfNames => 8,
            BuiltIn::OfKinds => 9,
            BuiltIn::OfProps => 10,
        }
    }

    pub(crate) fn kind(self) -> Kind
        ensures { result ≡ (built_in_attribute self).kind }
    {
        match self {
            BuiltIn::OfNames => Kind::Str,
            BuiltIn::OfKinds => Kind::TypeName,
            BuiltIn::OfProps => Kind::Int,
        }
    }

    pub(crate) fn name(self) -> &'static str
        ensures { result.now ≡ (built_in_attribute self).name }
    {
        match self {
            BuiltIn::OfNames => "cali.attribute.name",
            BuiltIn::OfKinds => "cali.attribute.type",
            BuiltIn::OfProps => "cali.attribute.prop",
        }
    }

    /// The attribute.
    pub(crate) fn attribute(self, alloc: Global) -> Result<Attribute, OutOfMemory>
        ensures { IfOk result (λ attribute. attribute ≡ built_in_attribute self) }
    {
        Ok(Attribute {
            name: Text::from_str(alloc, self.name())?,
            kind: self.kind(),
            props: Props(0),
        })
    }
}

/// The nodes that every stream has.
pub(crate) fn built_in_nodes(alloc: Global, context: &mut Context) -> Result<Nodes, OutOfMemory>
    ensures grows { Grows context.old context.new }
    ensures held { IfOk result (λ nodes. AreHeld context.new nodes built_in) }
{
    let mut nodes = Nodes::new(alloc, context.seeds());
    put_kinds(alloc, &mut nodes, context)?;
    put_built_in(alloc, &mut nodes, context)?;
    Ok(nodes)
}

/// Puts the nodes of the kinds.
fn put_kinds(alloc: Global, nodes: &mut Nodes, context: &mut Context) -> Result<(), OutOfMemory>
    requires { AreHeld context.old nodes.old [] }
    ensures grows { Grows context.old context.new }
    ensures held { OnOk result
        (AreHeld context.new nodes.new (reverse (map named_kind every_kind))) }
{
    for kind in [
        Kind::Usr,
        Kind::Int,
        Kind::Uint,
        Kind::Str,
        Kind::Addr,
        Kind::Double,
        Kind::Bool,
        Kind::TypeName,
        Kind::Ptr,
    ] {
        let held = held_kind(alloc, kind, context)?;
        nodes.insert(kind.node(), held)?;
    }
    Ok(())
}

/// Puts the nodes of the built-in attributes.
fn put_built_in(alloc: Global, nodes: &mut Nodes, context: &mut Context) -> Result<(), OutOfMemory>
    ensures grows { Grows context.old context.new }
    ensures held { OnOk result ((named : List Named) → AreHeld context.old nodes.old named
        → AreHeld context.new nodes.new (reverse (map named_built_in every_built_in) ++ named)) }
{
    for attribute in [BuiltIn::OfNames, BuiltIn::OfKinds, BuiltIn::OfProps] {
        let held = held_built_in(alloc, attribute, context)?;
        nodes.insert(attribute.id(), held)?;
    }
    Ok(())
}

/// What is held of the node of a kind.
fn held_kind(alloc: Global, kind: Kind, context: &mut Context) -> Result<Held, OutOfMemory>
    ensures grows { Grows context.old context.new }
    ensures held { IfOk result (λ held. IsHeld context.new held (node_of_kind kind)) }
{
    let site = Site {
        attribute: context.attribute(&BuiltIn::OfKinds.attribute(alloc)?)?,
        above: root(context),
    };
    let ids = NodeIds {
        id: kind.node(),
        attribute: BuiltIn::OfKinds.id(),
        parent: None,
    };
    held_there(alloc, &ids, &site, &Variant::Kind(kind), context)
}

/// What is held of the node of a built-in attribute.
fn held_built_in(
    alloc: Global,
    attribute: BuiltIn,
    context: &mut Context,
) -> Result<Held, OutOfMemory>
    ensures grows { Grows context.old context.new }
    ensures held { IfOk result (λ held. IsHeld context.new held (node_of_built_in attribute)) }
{
    let above = held_kind(alloc, attribute.kind(), context)?.place;
    let site = Site {
        attribute: context.attribute(&BuiltIn::OfNames.attribute(alloc)?)?,
        above,
    };
    let ids = NodeIds {
        id: attribute.id(),
        attribute: BuiltIn::OfNames.id(),
        parent: Some(attribute.kind().node()),
    };
    let name = Variant::Text(Text::from_str(alloc, attribute.name())?);
    held_there(alloc, &ids, &site, &name, context)
}
