ghost use Rattle.std.specs.Prelude.{◌≡◌, ◌≤◌, length, take, IfOk, OnOk};

use cal_context::Immediate;
use cal_value::{OutOfMemory, Text, Variant};
use std::alloc::Global;

// no more texts are kept than these
const MOST: usize = 16;

/// Takes all immediates away but so many, and keeps some of their texts, whose memory serves again.
pub(crate) fn cut_to(
    imms: &mut Vec<Immediate>,
    count: usize,
    spare: &mut Vec<Text>,
) -> Result<(), OutOfMemory>
    requires { count ≤ length imms.old.items }
    ensures { OnOk result (imms.new.items ≡ take count imms.old.items) }
{
    'rest: while imms.len() > count {
        if let Some(imm) = imms.pop() {
            keep(spare, imm.value)?;
        }
    }
    Ok(())
}

/// Keeps the memory of a text, where few are kept.
pub(crate) fn keep(spare: &mut Vec<Text>, value: Variant) -> Result<(), OutOfMemory> {
    if let Variant::Text(text) = value {
        if spare.len() < MOST {
            spare.push(text)?;
        }
    }
    Ok(())
}

/// A copy of these characters, in the memory of a spare text if there is one.
pub(crate) fn copied(alloc: Global, spare: &mut Vec<Text>, text: &str) -> Result<Text, OutOfMemory>
    ensures { IfOk result (λ copied. copied ≡ text.now) }
{
    let mut copied = spare.pop().unwrap_or(Text::new(alloc));
    copied.truncate(0);
    copied.push_str(text)?;
    Ok(copied)
}
