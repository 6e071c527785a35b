ghost use Rattle.std.specs.Prelude.{◌≡◌, ◌++◌, ◌∷◌, [], false, OnOk};
ghost use Rattle.cal_line.specs.FirstFault.{after_lines};
ghost use Rattle.cal_script.specs.Lines.{pieces};
ghost use Rattle.cal_script.specs.Parts.{attribute_names, event_fronts, is_among, is_event_name, is_known};
ghost use Rattle.cal_script.specs.Parts.{service_names, with_name};
ghost use Rattle.cal_script.specs.Reading.{keyed, names_said, with_values};
ghost use Rattle.cal_script.specs.Registers.{IsAttributes, IsNames};
ghost use Rattle.cal_script.specs.Steps.{Gives, names_seen, words_behind};

use crate::end::LineEnd;
use crate::register::Register;
use crate::words::{cut, some_words};
use crate::{Channel, ScriptKind};
use cal_value::{Attribute, Seq, Text};
use std::alloc::Global;

/// Whether a name is one that services add to each snapshot.
fn is_service_name(name: &str) -> bool
    ensures { result ≡ is_among service_names name.now }
{
    name == "time.duration.ns"
        || name == "time.inclusive.duration.ns"
        || name == "region.depth"
        || name == "region.count"
}

fn is_event_front(front: &str) -> bool
    ensures { result ≡ is_among event_fronts front.now }
{
    front == "event.begin" || front == "event.end" || front == "event.set"
}

/// Whether a name is one that services add at the events of a declared attribute.
#[tactic(auto, using(crate::proofs::Cuts::is_event_name_one, crate::proofs::Cuts::is_event_name_more))]
fn is_event_name(declared: &Register<Attribute>, name: &str) -> bool
    requires { IsAttributes declared.now }
    ensures { result ≡ is_event_name (attribute_names declared.now.items) (pieces 35 name.now) }
{
    let (front, behind) = cut(name, '#');
    let Some(behind) = behind else {
        return false;
    };
    let (attribute, more) = cut(behind, '#');
    if more.is_some() {
        return false;
    }
    is_event_front(front) && declared.has(attribute)
}

fn is_known(declared: &Register<Attribute>, name: &str) -> bool
    requires { IsAttributes declared.now }
    ensures { result ≡ is_known (attribute_names declared.now.items) name.now }
{
    declared.has(name) || is_service_name(name) || is_event_name(declared, name)
}

/// Whether one name more may stand in a line. The first of a `key` line may be `path`.
fn test_name(
    declared: &Register<Attribute>,
    names: &Register<Text>,
    is_key: bool,
    name: &str,
) -> Result<(), LineEnd>
    requires declared { IsAttributes declared.now }
    requires names { IsNames names.now }
    ensures said { Gives (λ _. names.now.items ++ name.now ∷ []) result
        (with_name is_key (attribute_names declared.now.items) names.now.items name.now) }
    ensures fresh { OnOk result (is_among names.now.items name.now ≡ false) }
{
    if is_key && name == "path" {
        if !names.items.is_empty() {
            return Err(LineEnd::Bad(ScriptKind::BadName));
        }
        return Ok(());
    }
    if names.has(name) {
        return Err(LineEnd::Bad(ScriptKind::DuplicateName));
    }
    if !is_known(declared, name) {
        return Err(LineEnd::Bad(ScriptKind::UnknownName));
    }
    Ok(())
}

fn add_name(
    alloc: Global,
    declared: &Register<Attribute>,
    names: &mut Register<Text>,
    is_key: bool,
    name: &str,
) -> Result<(), LineEnd>
    requires declared { IsAttributes declared.now }
    requires names { IsNames names.old }
    ensures said { Gives (λ _. names.new.items) result
        (with_name is_key (attribute_names declared.now.items) names.old.items name.now) }
    ensures kept { OnOk result (IsNames names.new) }
{
    test_name(declared, names, is_key, name)?;
    names.add(alloc, Text::from_str(alloc, name)?)?;
    Ok(())
}

/// The names that stand in a line.
fn read_names(
    alloc: Global,
    declared: &Register<Attribute>,
    is_key: bool,
    text: &str,
) -> Result<Seq<Text>, LineEnd>
    requires { IsAttributes declared.now }
    ensures { Gives (λ names. names) result
        (after_lines (with_name is_key (attribute_names declared.now.items)) [] (pieces 32 text.now)) }
{
    let mut names = Register::new(alloc, declared.seeds());
    let mut rest = Some(text);
    while let Some(text) = rest {
        let (name, more) = cut(text, ' ');
        add_name(alloc, declared, &mut names, is_key, name)?;
        rest = more;
    }
    Ok(names.into_items())
}

/// The words of a `key` or `value` line of this channel.
fn names_of<'a>(channel: &Channel, rest: Option<&'a str>) -> Result<&'a str, ScriptKind>
    ensures { names_seen result ≡ names_said channel.now (words_behind rest.entry) }
{
    let Some(names) = some_words(rest) else {
        return Err(ScriptKind::WrongArity);
    };
    if !channel.aggregate {
        return Err(ScriptKind::NotAggregate);
    }
    Ok(names)
}

/// The channel with a `key` line, which it may have once.
pub(crate) fn add_keys(
    alloc: Global,
    declared: &Register<Attribute>,
    channel: &mut Channel,
    rest: Option<&str>,
) -> Result<(), LineEnd>
    requires { IsAttributes declared.now }
    ensures { Gives (λ _. channel.new) result
        (keyed (attribute_names declared.now.items) channel.old (words_behind rest.entry)) }
{
    if !channel.query.by_default {
        return Err(LineEnd::Bad(ScriptKind::Misplaced));
    }
    match names_of(channel, rest) {
        Err(kind) => Err(LineEnd::Bad(kind)),
        Ok(names) => {
            channel.query.keys = read_names(alloc, declared, true, names)?;
            channel.query.by_default = false;
            Ok(())
        }
    }
}

/// The channel with a `value` line.
pub(crate) fn add_values(
    alloc: Global,
    declared: &Register<Attribute>,
    channel: &mut Channel,
    rest: Option<&str>,
) -> Result<(), LineEnd>
    requires { IsAttributes declared.now }
    ensures { Gives (λ _. channel.new) result
        (with_values (attribute_names declared.now.items) channel.old (words_behind rest.entry)) }
{
    match names_of(channel, rest) {
        Err(kind) => Err(LineEnd::Bad(kind)),
        Ok(names) => {
            channel.query.values = read_names(alloc, declared, false, names)?;
            Ok(())
        }
    }
}
