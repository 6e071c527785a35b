ghost use Rattle.std.specs.Prelude.{◌≡◌, ◌+◌, ◌<◌, ◌^◌, length, IfErr, IfOk};
ghost use Rattle.cal_script.specs.Lines.{lines_of};
ghost use Rattle.cal_journal.specs.Both.{IsJournalRefusal, SaysJournalBehind, end_at};

use crate::ends::LineFault;
use crate::pending::Pending;
use crate::{BothEnd, JournalKind};
use cal_line::next_line;
use cal_script::JournalText;
use std::alloc::Global;

/// The journal that stands behind so many lines of an input, or none where nothing is left.
pub(crate) fn read_journal(
    alloc: Global,
    before: u64,
    bytes: &[u8],
) -> Result<Option<JournalText>, BothEnd>
    requires { before + length bytes.now + 1 < 2 ^ 64 }
    ensures said { IfOk result (λ text. SaysJournalBehind before (lines_of bytes.now) text) }
    ensures fault { IfErr result (λ end. IsJournalRefusal before (lines_of bytes.now) end) }
{
    if bytes.is_empty() {
        return Ok(None);
    }
    let mut pending = Pending::begin_at(alloc, before);
    let mut rest = bytes;
    while !rest.is_empty() {
        let (text, after) = next_line(rest);
        match pending.take_line(alloc, text) {
            Ok(()) => {}
            Err(fault) => return Err(end_at(pending.line, fault)),
        }
        rest = after;
    }
    let line = pending.line + 1;
    match pending.into_journal()? {
        Some(text) => Ok(Some(text)),
        None => Err(BothEnd::Journal {
            line,
            kind: JournalKind::Cut,
        }),
    }
}

/// The end at a line that has a fault.
fn end_at(line: u64, fault: LineFault) -> BothEnd
    ensures { result ≡ end_at line fault }
{
    match fault {
        LineFault::Form => BothEnd::Journal {
            line,
            kind: JournalKind::Form,
        },
        LineFault::After => BothEnd::Journal {
            line,
            kind: JournalKind::After,
        },
        LineFault::OutOfMemory => BothEnd::OutOfMemory,
    }
}
