ghost use Rattle.std.specs.Prelude.{◌≡◌, ◌<◌, IfSome, length};
ghost use Rattle.cal_context.specs.Tree.{value_at};

use cal_context::{Context, NodeNumber, ValueNumber};
use cal_value::{OutOfMemory, Variant};
use std::alloc::Global;

// so many numbers are kept
const PLACES: usize = 256;

/// The numbers of texts that came as values of nodes, each at a place that its bytes give. A text
/// is compared with the value of a number before that is taken, and needs neither a copy nor a
/// hash.
#[derive(Drop)]
pub(crate) struct Recent {
    numbers: Vec<ValueNumber>,
}

impl Recent {
    /// No number. It takes no memory.
    pub(crate) fn new(alloc: Global) -> Recent {
        Recent {
            numbers: Vec::new(alloc),
        }
    }

    /// The number of a text, where it is kept.
    pub(crate) fn number(&self, context: &Context, text: &str) -> Option<ValueNumber>
        ensures within { IfSome result (λ number. number.0 < length context.now.values) }
        ensures number { IfSome result (λ number.
            value_at context.now number ≡ Variant.Text text.now) }
    {
        let place = place_of(text)?;
        if place >= self.numbers.len() {
            return None;
        }
        let number = self.numbers[place];
        if number.0 as usize >= context.value_count() {
            return None;
        }
        let Variant::Text(other) = context.value_at(number) else {
            return None;
        };
        if other.as_str() == text {
            Some(number)
        } else {
            None
        }
    }

    /// Keeps the number of a node's value, which has this text.
    pub(crate) fn note(
        &mut self,
        context: &Context,
        node: NodeNumber,
        text: &str,
    ) -> Result<(), OutOfMemory> {
        let Some(place) = place_of(text) else {
            return Ok(());
        };
        if node.0 as usize >= context.node_count() {
            return Ok(());
        }
        let Some(link) = context.link(node) else {
            return Ok(());
        };
        while self.numbers.len() <= place {
            self.numbers.push(ValueNumber(0))?;
        }
        self.numbers[place] = link.value;
        Ok(())
    }
}

/// The place of a text's number.
fn place_of(text: &str) -> Option<usize> {
    let bytes = text.as_bytes();
    let last = usize::from(*bytes.last()?);
    let middle = usize::from(bytes[bytes.len() / 2]);
    Some((last * 3 + middle * 31 + bytes.len() % 16 * 17) % PLACES)
}
