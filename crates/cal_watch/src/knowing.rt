//! What is found out of a context's attributes and nodes, once of each.
ghost use Rattle.std.specs.Prelude.{◌≡◌, map, OnOk};
ghost use Rattle.cal_watch.specs.Asking.{Keeps, all_named, has_name, holds_on};

use crate::asker::Asker;
use crate::asking::holds_at;
use crate::decider::Decider;
use cal_context::{AttributeNumber, Context, NodeNumber};
use cal_value::OutOfMemory;

/// Finds out of new attributes whether they have a condition's name.
pub(crate) fn know_attributes<D: Decider>(
    decider: &D,
    named: &mut Vec<bool>,
    context: &Context,
) -> Result<(), OutOfMemory>
    ensures { OnOk result (Keeps (has_name D.condition) named.old.items context.now.attributes
        → named.new.items ≡ all_named D.condition context.now) }
{
    for place in named.len()..context.attribute_count() {
        let Ok(number) = u32::try_from(place) else {
            return Err(OutOfMemory);
        };
        let attribute = context.attribute_at(AttributeNumber(number));
        named.push(decider.is_of(attribute))?;
    }
    Ok(())
}

/// Finds out of new nodes whether some entry of their paths has the condition's name and passes its
/// test.
pub(crate) fn know_nodes<D: Decider + Drop>(
    asker: &mut Asker<D>,
    named: &[bool],
    holding: &mut Vec<bool>,
    context: &Context,
) -> Result<(), OutOfMemory>
    ensures { OnOk result (named.now ≡ all_named D.condition context.now
        → Keeps (holds_on D.condition) holding.old.items context.now.paths
        → holding.new.items ≡ map (holds_on D.condition) context.now.paths) }
{
    for place in holding.len()..context.node_count() {
        let Ok(number) = u32::try_from(place) else {
            return Err(OutOfMemory);
        };
        let holds = holds_at(
            asker,
            named,
            holding.as_slice(),
            context,
            NodeNumber(number),
        )?;
        holding.push(holds)?;
    }
    Ok(())
}
