ghost use Rattle.std.specs.Prelude.{◌≡◌, ◌++◌, codes, decimal, IfOk, OnOk};
ghost use Rattle.cal_summary.specs.Summaries.{number_line, summary_text};

use crate::Summary;
use cal_value::{OutOfMemory, Text};
use itoa::Buffer;
use std::alloc::Global;

/// The six lines of a summary.
pub fn summary_text(alloc: Global, summary: &Summary) -> Result<Text, OutOfMemory>
    ensures { IfOk result (λ text. text ≡ summary_text summary.now) }
{
    let mut text = Text::new(alloc);
    push_line(&mut text, "threads ", summary.threads)?;
    push_line(&mut text, "lines ", summary.lines)?;
    push_line(&mut text, "nodes ", summary.nodes)?;
    push_line(&mut text, "snapshots ", summary.snapshots)?;
    push_line(&mut text, "groups ", summary.groups)?;
    push_line(&mut text, "bytes ", summary.bytes)?;
    Ok(text)
}

/// Appends a line of a name, with the space behind it, and a number.
fn push_line(text: &mut Text, name: &str, number: u64) -> Result<(), OutOfMemory>
    ensures { OnOk result (text.new ≡ text.old ++ number_line name.now number) }
{
    text.push_str(name)?;
    text.push_str(Buffer::new().format(number))?;
    text.push_str("\n")
}
