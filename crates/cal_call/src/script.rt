//! The script that an input has left.
ghost use Rattle.std.specs.Prelude.{◌≡◌, false, IfErr, IfOk, Some};
ghost use Rattle.cal_base.specs.Change.{Change, change_of};
ghost use Rattle.cal_script.specs.Reading.{Means};
ghost use Rattle.cal_call.specs.Causes.{Causes, ReadsInput};
ghost use Rattle.cal_call.specs.Faults.{writes};
ghost use Rattle.cal_call.specs.Refusals.{no_journal};
ghost use Rattle.cal_call.specs.Tasks.{ThreadsTask};

use crate::serial::give_back;
use crate::{Fault, INPUT_LIMIT, InputKind, RunText};
use cal_base::{ReadEnd, Source, read_all};
use cal_script::{Script, ScriptEnd, read_script_seeded};
use cal_seeds::Seeds;
use std::alloc::Global;

/// Reads the script that the input has left, and the end behind it, for a run in threads. Its names
/// are hashed by the seeds.
pub fn read_input<S: Source>(
    alloc: Global,
    seeds: Seeds,
    shown: RunText,
    real: bool,
    input: &mut S,
) -> Result<Script, Fault>
    ensures read { IfOk result (λ script. ReadsInput
        (change_of S.left S.faults input.old input.new) (λ bytes. Means bytes script)) }

    // The cause lies in the input, whatever becomes of the output.
    ensures caused { IfErr result (λ fault. (output : Change) → Causes (ThreadsTask shown real)
        (change_of S.left S.faults input.old input.new) output no_journal fault) }
    ensures unwritten { IfErr result (λ fault. writes (Some fault) ≡ false) }
{
    match read_all(alloc, input, INPUT_LIMIT) {
        Ok(bytes) => {
            let read = script_of(alloc, seeds, shown, real, bytes.as_slice());
            give_back(bytes);
            read
        }
        Err(ReadEnd::ReadFault) => Err(Fault::ReadFault),
        Err(ReadEnd::TooLong) => Err(Fault::TooLong),
        Err(ReadEnd::OutOfMemory) => Err(Fault::OutOfMemory),
    }
}

/// The script that bytes mean, or their first fault.
fn script_of(
    alloc: Global,
    seeds: Seeds,
    shown: RunText,
    real: bool,
    bytes: &[u8],
) -> Result<Script, Fault>
    ensures read { IfOk result (Means bytes.now) }

    // The cause of an input that was read as these bytes.
    ensures caused { IfErr result (λ fault. (input : Change) → (output : Change)
        → ReadsInput input (λ read. read ≡ bytes.now)
        → Causes (ThreadsTask shown real) input output no_journal fault) }
    ensures unwritten { IfErr result (λ fault. writes (Some fault) ≡ false) }
{
    let _ = (shown, real);
    match read_script_seeded(alloc, seeds, bytes) {
        Ok(script) => Ok(script),
        Err(ScriptEnd::BadLine { line, kind }) => Err(Fault::BadInput {
            line,
            kind: InputKind::Script(kind),
        }),
        Err(ScriptEnd::OutOfMemory) => Err(Fault::OutOfMemory),
    }
}
