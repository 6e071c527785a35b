ghost use Rattle.std.specs.Prelude.{◌≡◌, ◌∷◌, ◌++◌, [], IfOk, OnOk, map};
ghost use Rattle.cal_write.specs.BuiltIn.{built_in_attribute, built_in_id};
ghost use Rattle.cal_write.specs.BuiltIn.{built_in_keys, key_of_built_in, key_of_kind};
ghost use Rattle.cal_write.specs.Nodes.{first_kinds};
ghost use Rattle.cal_write.specs.declared.built_in.BuiltIn.TheVariants.{OfNames, OfKinds, OfProps};

use crate::described::DescribedNode;
use cal_context::Interner;
use cal_seeds::Seeds;
use cal_value::{Attribute, Entry, Kind, OutOfMemory, Props, Text, Variant};
use std::alloc::Global;

/// The attributes that say what an attribute is.
#[derive(Clone, Copy)]
pub(crate) enum BuiltIn {
    OfNames,
    OfKinds,
    OfProps,
}

impl BuiltIn {
    /// The id of the attribute's node in every stream.
    pub(crate) fn id(self) -> u32
        ensures { result ≡ built_in_id self }
    {
        match self {
            BuiltIn::OfNames => 8,
            BuiltIn::OfKinds => 9,
            BuiltIn::OfProps => 10,
        }
    }

    fn kind(self) -> Kind
        ensures { result ≡ (built_in_attribute self).kind }
    {
        match self {
            BuiltIn::OfNames => Kind::Str,
            BuiltIn::OfKinds => Kind::TypeName,
            BuiltIn::OfProps => Kind::Int,
        }
    }

    fn name(self) -> &'static str
        ensures { result.now ≡ (built_in_attribute self).name }
    {
        match self {
            BuiltIn::OfNames => "cali.attribute.name",
            BuiltIn::OfKinds => "cali.attribute.type",
            BuiltIn::OfProps => "cali.attribute.prop",
        }
    }

    /// An entry of the attribute.
    pub(crate) fn entry(self, alloc: Global, value: Variant) -> Result<Entry, OutOfMemory>
        ensures { IfOk result (λ e. e ≡ record { attr = built_in_attribute self; value = value }) }
    {
        let attr = Attribute {
            name: Text::from_str(alloc, self.name())?,
            kind: self.kind(),
            props: Props(0),
        };
        Ok(Entry { attr, value })
    }

    /// The node of the attribute, which has its name.
    fn node(self, alloc: Global) -> Result<DescribedNode, OutOfMemory>
        ensures { IfOk result (λ node. node ≡ key_of_built_in self) }
    {
        let name = Text::from_str(alloc, self.name())?;
        Ok(DescribedNode {
            parent: Some(self.kind().node() as u32),
            entry: BuiltIn::OfNames.entry(alloc, Variant::Text(name))?,
        })
    }
}

/// The nodes that every stream has, in the order of their ids, hashed by these seeds.
pub(crate) fn built_in_nodes(
    alloc: Global,
    seeds: Seeds,
) -> Result<Interner<DescribedNode>, OutOfMemory>
    ensures { IfOk result (λ nodes. nodes ≡ built_in_keys) }
{
    let mut nodes = Interner::seeded(alloc, seeds);
    put_nodes(alloc, &mut nodes)?;
    Ok(nodes)
}

fn put_nodes(alloc: Global, nodes: &mut Interner<DescribedNode>) -> Result<(), OutOfMemory>
    requires { nodes.old ≡ [] }
    ensures { OnOk result (nodes.new ≡ built_in_keys) }
{
    put_first_kinds(alloc, nodes)?;
    put_attributes(alloc, nodes)?;
    nodes.intern(node_of_kind(alloc, Kind::Ptr)?)?;
    Ok(())
}

/// Puts the nodes of the attributes that say what an attribute is.
fn put_attributes(alloc: Global, nodes: &mut Interner<DescribedNode>) -> Result<(), OutOfMemory>
    requires { nodes.old ≡ map key_of_kind first_kinds }
    ensures { OnOk result (nodes.new ≡ map key_of_kind first_kinds
        ++ map key_of_built_in (OfNames ∷ OfKinds ∷ OfProps ∷ [])) }
{
    for attribute in [BuiltIn::OfNames, BuiltIn::OfKinds, BuiltIn::OfProps] {
        nodes.intern(attribute.node(alloc)?)?;
    }
    Ok(())
}

/// Puts the nodes of the kinds that come first.
fn put_first_kinds(alloc: Global, nodes: &mut Interner<DescribedNode>) -> Result<(), OutOfMemory>
    requires { nodes.old ≡ [] }
    ensures { OnOk result (nodes.new ≡ map key_of_kind first_kinds) }
{
    for kind in [
        Kind::Usr,
        Kind::Int,
        Kind::Uint,
        Kind::Str,
        Kind::Addr,
        Kind::Double,
        Kind::Bool,
        Kind::TypeName,
    ] {
        nodes.intern(node_of_kind(alloc, kind)?)?;
    }
    Ok(())
}

fn node_of_kind(alloc: Global, kind: Kind) -> Result<DescribedNode, OutOfMemory>
    ensures { IfOk result (λ node. node ≡ key_of_kind kind) }
{
    Ok(DescribedNode {
        parent: None,
        entry: BuiltIn::OfKinds.entry(alloc, Variant::Kind(kind))?,
    })
}
