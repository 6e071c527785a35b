ghost use Rattle.std.specs.Prelude.{◌≡◌, ◌+◌, ◌≤◌, ◌++◌, List, ℕ, IfOk, OnOk};
ghost use Rattle.cal_tabfmt.specs.Ends.{HasLine};
ghost use Rattle.cal_tabfmt.specs.Grid.{spaces, without_end};

use cal_value::{OutOfMemory, Text};

/// Appends a text to a line. Spaces at its end stay pending, and are written before what follows,
/// so that those at the line's end cost nothing.
pub(crate) fn append_text(out: &mut Text, pending: usize, text: &str) -> Result<usize, OutOfMemory>
    ensures { IfOk result (λ left. (before line : List ℕ) → HasLine before out.old pending line
        → HasLine before out.new left (line ++ text.now)) }
{
    let kept = without_end(text);
    if kept.is_empty() {
        return added(pending, text.len());
    }
    append_spaces(out, pending)?;
    out.push_str(kept)?;
    Ok(text.len() - kept.len())
}

/// The sum, or no memory: so many spaces can't be written.
pub(crate) fn added(pending: usize, more: usize) -> Result<usize, OutOfMemory>
    ensures { IfOk result (λ sum. sum ≡ pending + more) }
{
    pending.checked_add(more).ok_or(OutOfMemory)
}

// so many spaces are written at once
const SPACES: &str = "                                                                ";

// Most lines have many spaces, and most gaps fewer than are written at once.
fn append_spaces(out: &mut Text, count: usize) -> Result<(), OutOfMemory>
    ensures { OnOk result (out.new ≡ out.old ++ spaces count) }
{
    let mut left = count;
    while left > 64 {
        out.push_str(SPACES)?;
        left -= 64;
    }
    out.push_str(first_of(SPACES, left))
}

// so many of sixty-four spaces
fn first_of(blank: &str, count: usize) -> &str
    requires blank { blank.now ≡ spaces 64 }
    requires count { count ≤ 64 }
    ensures { result.now ≡ spaces count }
{
    &blank[..count]
}

/// A text without the spaces at its end.
fn without_end(text: &str) -> &str
    ensures { result.now ≡ without_end text.now }
{
    let bytes = text.as_bytes();
    let mut end = bytes.len();
    while end > 0 && bytes[end - 1] == b' ' {
        end -= 1;
    }
    &text[..end]
}
