ghost use Rattle.std.specs.Prelude.{◌≡◌, ◌+◌, ◌<◌, ◌≤◌, ◌^◌, ◌∷◌, false, true, length, IfErr};
ghost use Rattle.std.specs.Prelude.{IfNone, IfOk, IfSome};
ghost use Rattle.cal_script.specs.Limits.{fits};
ghost use Rattle.cal_script.specs.Lines.{lines_of};
ghost use Rattle.cal_script.specs.Reader.{IsReading, state_of};
ghost use Rattle.cal_script.specs.Rests.{bytes_in};
ghost use Rattle.cal_script.specs.State.{no_lines, script_of};
ghost use Rattle.cal_journal.specs.Both.{IsFront, IsRefusalOf, MeansBoth, begins, ends_word};
ghost use Rattle.cal_journal.specs.Both.{script_length};

use crate::BothEnd;
use crate::reading::read_journal;
use cal_script::{JournalText, LineEnd, Reader, Rest, Script};
use cal_seeds::Seeds;
use std::alloc::Global;

fn ends_word(behind: &[u8]) -> bool
    ensures { result ≡ ends_word behind.now }
{
    match behind {
        [] => true,
        [first, ..] => *first == b' ',
    }
}

/// Whether a line's first word is `journal`.
fn begins_journal(line: &[u8]) -> bool
    ensures { result ≡ begins line.now }
{
    line.starts_with(b"journal") && ends_word(&line[7..])
}

/// The next line, where it is one of the script, and what stands behind it.
#[inline(always)]
fn script_line(rest: Rest<'_>) -> Option<(Rest<'_>, Rest<'_>)>
    ensures lines { IfSome result (λ parts. lines_of (bytes_in rest.entry)
        ≡ bytes_in parts.0 ∷ lines_of (bytes_in parts.1)) }
    ensures shorter { IfSome result (λ parts. length (bytes_in parts.1)
        < length (bytes_in rest.entry)) }
    ensures script { IfSome result (λ parts. begins (bytes_in parts.0) ≡ false) }
    ensures none { IfNone result (script_length (lines_of (bytes_in rest.entry)) ≡ 0) }
{
    let (line, after) = rest.next_line()?;
    if begins_journal(line.bytes()) {
        return None;
    }
    Some((line, after))
}

/// A script, and how many lines stand before the rest of the input.
#[derive(Drop)]
struct Front<'a> {
    script: Script,
    line: u64,
    rest: &'a [u8],
}

fn read_front(alloc: Global, seeds: Seeds, bytes: &[u8]) -> Result<Front<'_>, BothEnd>
    ensures front { IfOk result (λ front. IsFront bytes.now front.script front.line
        front.rest.now) }
    ensures fault { IfErr result (λ end. IsRefusalOf bytes.now end) }
{
    let mut reader = Reader::seeded(alloc, seeds);
    let (line, rest) = read_lines(alloc, &mut reader, bytes)?;
    let script = reader.into_script()?;
    let rest = rest.bytes();
    Ok(Front { script, line, rest })
}

/// Reads the lines of the script, by a reader of no lines. It gives how many they are, and the rest
/// of the input.
fn read_lines<'a>(
    alloc: Global,
    reader: &mut Reader,
    bytes: &'a [u8],
) -> Result<(u64, Rest<'a>), BothEnd>
    requires start { state_of reader.old ≡ no_lines }
    requires kept { IsReading reader.old }
    requires fits { fits (state_of reader.old) ≡ true }
    ensures front { IfOk result (λ at. IsFront bytes.now (script_of (state_of reader.new))
        at.0 (bytes_in at.1)) }
    ensures fault { IfErr result (λ end. IsRefusalOf bytes.now end) }
{
    let mut rest = Rest::of(bytes);
    let mut line: u64 = 0;
    while let Some((text, after)) = script_line(rest) {
        line += 1;
        match reader.read_rest(alloc, text) {
            Ok(()) => {}
            Err(LineEnd::Bad(kind)) => return Err(BothEnd::Script { line, kind }),
            Err(LineEnd::OutOfMemory) => return Err(BothEnd::OutOfMemory),
        }
        rest = after;
    }
    Ok((line, rest))
}

/// The script and the journal that the bytes mean, or the script alone where no line begins a
/// journal. It takes time in their number. Names are hashed by numbers that everybody knows.
pub fn read_both(alloc: Global, bytes: &[u8]) -> Result<(Script, Option<JournalText>), BothEnd>
    ensures both { IfOk result (λ both. MeansBoth bytes.now both) }
    ensures fault { IfErr result (λ end. IsRefusalOf bytes.now end) }
{
    read_both_seeded(alloc, Seeds::fixed(), bytes)
}

/// The same, where names are hashed by the seeds of a run.
#[tactic(auto, using(crate::proofs::JournalRuns::both_said, crate::proofs::JournalRuns::both_told))]
pub fn read_both_seeded(
    alloc: Global,
    seeds: Seeds,
    bytes: &[u8],
) -> Result<(Script, Option<JournalText>), BothEnd>
    ensures both { IfOk result (λ both. MeansBoth bytes.now both) }
    ensures fault { IfErr result (λ end. IsRefusalOf bytes.now end) }
{
    match read_front(alloc, seeds, bytes) {
        Err(end) => Err(end),
        Ok(Front { script, line, rest }) => match read_journal(alloc, line, rest) {
            Err(end) => Err(end),
            Ok(text) => Ok((script, text)),
        },
    }
}
