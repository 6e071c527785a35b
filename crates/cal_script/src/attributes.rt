ghost use Rattle.std.specs.Prelude.{◌≡◌, false, IfOk, IsTrue};
ghost use Rattle.cal_value.specs.Kinds.{kind_named};
ghost use Rattle.cal_script.specs.Names.{is_name};
ghost use Rattle.cal_script.specs.Parts.{attribute_names, attribute_of};
ghost use Rattle.cal_script.specs.Parts.{declarable, declared_props, is_among, is_text_kind};
ghost use Rattle.cal_script.specs.Registers.{IsAttributes};
ghost use Rattle.cal_script.specs.Steps.{Gives};

use crate::ScriptKind;
use crate::end::LineEnd;
use crate::names::is_attribute_name;
use crate::register::Register;
use crate::value::read_decimal;
use cal_value::{Attribute, Kind, Props, Text};
use std::alloc::Global;

const GREATEST_PROPS: u64 = 65_535;

/// The kind of this name, where an attribute may have it.
fn read_kind(name: &str) -> Result<Kind, LineEnd>
    ensures { Gives (λ kind. kind) result (declarable (kind_named name.now)) }
{
    match Kind::from_name(name) {
        Some(Kind::Str) => Ok(Kind::Str),
        Some(Kind::Int) => Ok(Kind::Int),
        Some(Kind::Uint) => Ok(Kind::Uint),
        Some(Kind::Addr) => Ok(Kind::Addr),
        Some(Kind::Double) => Ok(Kind::Double),
        Some(Kind::Bool) => Ok(Kind::Bool),
        _ => Err(LineEnd::Bad(ScriptKind::BadKind)),
    }
}

#[tactic(auto, using(crate::proofs::Values::props_read))]
fn read_props(alloc: Global, word: &str) -> Result<Props, LineEnd>
    ensures { Gives (λ props. props) result (declared_props word.now) }
{
    match read_decimal(alloc, word)? {
        Some(bits) if bits <= GREATEST_PROPS => Ok(Props(bits as u32)),
        _ => Err(LineEnd::Bad(ScriptKind::BadProps)),
    }
}

fn is_text_kind(kind: Kind) -> bool
    ensures { result ≡ is_text_kind kind }
{
    match kind {
        Kind::Str => true,
        Kind::Double => true,
        _ => false,
    }
}

/// The attribute that these words declare.
#[tactic(auto, using(crate::proofs::FirstWords::declared_name))]
pub(crate) fn read_attribute(
    alloc: Global,
    declared: &Register<Attribute>,
    name: &str,
    kind: &str,
    props: &str,
) -> Result<Attribute, LineEnd>
    requires { IsAttributes declared.now }
    ensures fresh { IfOk result (λ attribute. is_among (attribute_names declared.now.items) attribute.name
        ≡ false) }
    ensures named { IfOk result (λ attribute. IsTrue (is_name attribute.name)) }
    ensures said { Gives (λ attribute. attribute) result
        (attribute_of declared.now.items (name.now, kind.now, props.now)) }
{
    if !is_attribute_name(name) {
        return Err(LineEnd::Bad(ScriptKind::BadName));
    }
    if declared.has(name) {
        return Err(LineEnd::Bad(ScriptKind::DuplicateName));
    }
    let kind = read_kind(kind)?;
    let props = read_props(alloc, props)?;
    if props.is_as_value() && is_text_kind(kind) {
        return Err(LineEnd::Bad(ScriptKind::BadKind));
    }
    Ok(Attribute {
        name: Text::from_str(alloc, name)?,
        kind,
        props,
    })
}
