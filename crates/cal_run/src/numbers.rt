ghost use Rattle.std.specs.Prelude.{◌≡◌, ◌<◌, [], ◌∷◌, flat_map, length, map, All, IfOk, OnOk};
ghost use Rattle.std.specs.List.{AllZip};
ghost use Rattle.cal_context.specs.Tree.{Grows};
ghost use Rattle.cal_run.specs.Numbers.{AreNumbered, EventsStand, IsNumber, ValuesStand, number_in};
ghost use Rattle.cal_run.specs.RunAttributes.{AreOfRun, GainsOnly, events_of};
ghost use Rattle.cal_run.specs.Snapshots.{added, event_name, event_of};
ghost use Rattle.cal_script.specs.Valid.{AreDeclared, IsRunnable};
ghost use Rattle.cal_value.specs.declared.kind.Kind.TheVariants as kind;

use cal_context::{AttributeNumber, Context, ValueNumber};
use cal_script::{Script, ValueList};
use cal_value::{Attribute, Kind, OutOfMemory, Props, Text, Variant};
use cal_words::OpCode;
use std::alloc::Global;

/// The numbers of a script's values in a context, place by place, and those of the attributes that
/// services add. The script's own attributes have their places as numbers.
#[derive(Debug, Drop)]
pub struct Numbers {
    pub values: Vec<ValueNumber>,
    /// Of each attribute, the attributes of its events.
    pub events: Vec<EventNumbers>,
    pub duration: AttributeNumber,
    pub inclusive: AttributeNumber,
    pub depth: AttributeNumber,
    pub count: AttributeNumber,
}

/// The numbers of the attributes of an attribute's events.
#[derive(Clone, Copy, Debug, PartialEq, Eq)]
pub struct EventNumbers {
    pub begin: AttributeNumber,
    pub end: AttributeNumber,
    pub set: AttributeNumber,
}

/// An attribute that a service adds is as value, and no event.
const ADDED: Props = Props(65);

impl Numbers {
    /// Gives each attribute and value of a script its number in a context without attributes, and
    /// each attribute that a service may add; no other comes in. An `Err` may leave some in the
    /// context.
    pub fn of(alloc: Global, script: &Script, context: &mut Context) -> Result<Numbers, OutOfMemory>
        requires runnable { IsRunnable script.now }
        requires none { context.old.attributes ≡ [] }
        ensures numbered { IfOk result (AreNumbered context.new script.now) }
        ensures only { IfOk result (λ numbers. AreOfRun script.now context.new.attributes) }
        ensures grows { Grows context.old context.new }
    {
        place_attributes(script.attributes.as_slice(), context)?;
        Self::of_placed(alloc, script, context)
    }

    /// The same, where the context's attributes are the script's.
    fn of_placed(
        alloc: Global,
        script: &Script,
        context: &mut Context,
    ) -> Result<Numbers, OutOfMemory>
        requires { context.old.attributes ≡ script.now.attributes }
        ensures numbered { IfOk result (AreNumbered context.new script.now) }
        ensures only { IfOk result (λ numbers. AreOfRun script.now context.new.attributes) }
        ensures grows { Grows context.old context.new }
    {
        let values = number_values(alloc, &script.values, context)?;
        let events = number_events(alloc, script.attributes.as_slice(), context)?;
        let duration = number_uint(alloc, "time.duration.ns", context)?;
        let inclusive = number_uint(alloc, "time.inclusive.duration.ns", context)?;
        let depth = number_uint(alloc, "region.depth", context)?;
        let count = number_uint(alloc, "region.count", context)?;
        Ok(Numbers {
            values,
            events,
            duration,
            inclusive,
            depth,
            count,
        })
    }
}

/// Gives each attribute its place as its number.
fn place_attributes(attributes: &[Attribute], context: &mut Context) -> Result<(), OutOfMemory>
    requires declared { AreDeclared attributes.now }
    requires none { context.old.attributes ≡ [] }
    ensures placed { OnOk result (context.new.attributes ≡ attributes.now) }
    ensures grows { Grows context.old context.new }
{
    for attribute in attributes {
        context.attribute(attribute)?;
    }
    Ok(())
}

/// Gives values their numbers. One that is kept for several is looked up once.
fn number_values(
    alloc: Global,
    values: &ValueList,
    context: &mut Context,
) -> Result<Vec<ValueNumber>, OutOfMemory>
    ensures numbered { IfOk result (λ numbers. ValuesStand context.new numbers.items values.now) }
    ensures attributes { IfOk result
        (λ numbers. context.new.attributes ≡ context.old.attributes) }
    ensures grows { Grows context.old context.new }
{
    let (kept, places) = values.parts();
    let numbers = number_kept(alloc, kept, context)?;
    let placed = place_numbers(alloc, numbers.as_slice(), places)?;
    Ok(placed)
}

/// The numbers at these places.
fn place_numbers(
    alloc: Global,
    numbers: &[ValueNumber],
    places: &[u32],
) -> Result<Vec<ValueNumber>, OutOfMemory>
    requires { All (λ place. place < length numbers.now) places.now }
    ensures { IfOk result (λ placed. placed.items ≡ map (number_in numbers.now) places.now) }
{
    let mut placed = Vec::with_capacity(alloc, places.len())?;
    for place in places {
        placed.push(numbers[*place as usize])?;
    }
    Ok(placed)
}

fn number_kept(
    alloc: Global,
    values: &[Variant],
    context: &mut Context,
) -> Result<Vec<ValueNumber>, OutOfMemory>
    ensures numbered { IfOk result (λ numbers. ValuesStand context.new numbers.items values.now) }
    ensures attributes { IfOk result
        (λ numbers. context.new.attributes ≡ context.old.attributes) }
    ensures grows { Grows context.old context.new }
{
    let mut numbers = Vec::with_capacity(alloc, values.len())?;
    for value in values {
        numbers.push(context.value(value)?)?;
    }
    Ok(numbers)
}

fn number_events(
    alloc: Global,
    attributes: &[Attribute],
    context: &mut Context,
) -> Result<Vec<EventNumbers>, OutOfMemory>
    ensures numbered { IfOk result
        (λ numbers. AllZip (EventsStand context.new.attributes) numbers.items attributes.now) }
    ensures only { IfOk result (λ numbers. GainsOnly context.old.attributes context.new.attributes
        (flat_map events_of attributes.now)) }
    ensures grows { Grows context.old context.new }
{
    let mut numbers = Vec::with_capacity(alloc, attributes.len())?;
    for attribute in attributes {
        numbers.push(number_events_of(alloc, attribute, context)?)?;
    }
    Ok(numbers)
}

fn number_events_of(
    alloc: Global,
    attribute: &Attribute,
    context: &mut Context,
) -> Result<EventNumbers, OutOfMemory>
    ensures numbered { IfOk result
        (λ numbers. EventsStand context.new.attributes numbers attribute.now) }
    ensures only { IfOk result (λ numbers. GainsOnly context.old.attributes context.new.attributes
        (events_of attribute.now)) }
    ensures grows { Grows context.old context.new }
{
    let begin = number_event(alloc, OpCode::Begin, attribute, context)?;
    let end = number_event(alloc, OpCode::End, attribute, context)?;
    let set = number_event(alloc, OpCode::Set, attribute, context)?;
    Ok(EventNumbers { begin, end, set })
}

fn number_event(
    alloc: Global,
    code: OpCode,
    attribute: &Attribute,
    context: &mut Context,
) -> Result<AttributeNumber, OutOfMemory>
    ensures numbered { IfOk result
        (λ n. IsNumber context.new.attributes n (event_of code attribute.now)) }
    ensures only { IfOk result (λ n. GainsOnly context.old.attributes context.new.attributes
        (event_of code attribute.now ∷ [])) }
    ensures grows { Grows context.old context.new }
{
    let mut name = Text::from_str(alloc, event_name(code))?;
    name.push_str(attribute.name.as_str())?;
    number_added(name, attribute.kind, context)
}

fn event_name(code: OpCode) -> &'static str
    ensures { result.now ≡ event_name code }
{
    match code {
        OpCode::Begin => "event.begin#",
        OpCode::End => "event.end#",
        OpCode::Set => "event.set#",
    }
}

fn number_uint(
    alloc: Global,
    name: &str,
    context: &mut Context,
) -> Result<AttributeNumber, OutOfMemory>
    ensures numbered { IfOk result
        (λ n. IsNumber context.new.attributes n (added name.now kind.Uint)) }
    ensures only { IfOk result (λ n. GainsOnly context.old.attributes context.new.attributes
        (added name.now kind.Uint ∷ [])) }
    ensures grows { Grows context.old context.new }
{
    number_added(Text::from_str(alloc, name)?, Kind::Uint, context)
}

/// The number of an attribute that a service adds.
fn number_added(
    name: Text,
    kind: Kind,
    context: &mut Context,
) -> Result<AttributeNumber, OutOfMemory>
    ensures numbered { IfOk result (λ n. IsNumber context.new.attributes n (added name kind)) }
    ensures only { IfOk result (λ n. GainsOnly context.old.attributes context.new.attributes
        (added name kind ∷ [])) }
    ensures grows { Grows context.old context.new }
{
    context.attribute(&Attribute {
        name,
        kind,
        props: ADDED,
    })
}
