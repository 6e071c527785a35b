ghost use Rattle.std.specs.Prelude.{◌≡◌, true, IfOk, IfErr, OnOk};
ghost use Rattle.cal_script.specs.Faults.{IsRefusalOf};
ghost use Rattle.cal_script.specs.Limits.{fits};
ghost use Rattle.cal_script.specs.Reader.{IsReading, state_of};
ghost use Rattle.cal_script.specs.Reading.{Means};
ghost use Rattle.cal_script.specs.State.{no_lines, script_of};

use crate::end::LineEnd;
use crate::reader::Reader;
use crate::{Rest, Script, ScriptEnd};
use cal_seeds::Seeds;
use std::alloc::Global;

/// The script that the bytes mean. It takes time in their number. Names are hashed by numbers that
/// everybody knows.
pub fn read_script(alloc: Global, bytes: &[u8]) -> Result<Script, ScriptEnd>
    ensures read { IfOk result (λ script. Means bytes.now script) }
    ensures fault { IfErr result (λ end. IsRefusalOf bytes.now end) }
{
    read_script_seeded(alloc, Seeds::fixed(), bytes)
}

/// The same, where names are hashed by the seeds of a run.
pub fn read_script_seeded(alloc: Global, seeds: Seeds, bytes: &[u8]) -> Result<Script, ScriptEnd>
    ensures read { IfOk result (λ script. Means bytes.now script) }
    ensures fault { IfErr result (λ end. IsRefusalOf bytes.now end) }
{
    let mut reader = Reader::seeded(alloc, seeds);
    read_lines(alloc, &mut reader, bytes)?;
    Ok(reader.into_script()?)
}

/// Has a reader read all lines.
fn read_lines(alloc: Global, reader: &mut Reader, bytes: &[u8]) -> Result<(), ScriptEnd>
    requires start { state_of reader.old ≡ no_lines }
    requires kept { IsReading reader.old }
    requires fits { fits (state_of reader.old) ≡ true }
    ensures read { OnOk result (Means bytes.now (script_of (state_of reader.new))) }
    ensures fault { IfErr result (λ end. IsRefusalOf bytes.now end) }
{
    let mut rest = Rest::of(bytes);
    let mut line: u64 = 0;
    while let Some((text, after)) = rest.next_line() {
        line += 1;
        match reader.read_rest(alloc, text) {
            Ok(()) => {}
            Err(LineEnd::Bad(kind)) => return Err(ScriptEnd::BadLine { line, kind }),
            Err(LineEnd::OutOfMemory) => return Err(ScriptEnd::OutOfMemory),
        }
        rest = after;
    }
    Ok(())
}
