//! `serial`: the text of a run, by the script and the journal of an input.
ghost use Rattle.std.specs.Prelude.{◌≡◌, false, IfErr, IfOk, Ok};
ghost use Rattle.cal_base.specs.Change.{Change, change_of};
ghost use Rattle.cal_journal.specs.Both.{MeansBoth};
ghost use Rattle.cal_script.specs.Valid.{IsRunnable};
ghost use Rattle.cal_call.specs.Causes.{Answers, Causes, ReadsInput};
ghost use Rattle.cal_call.specs.Faults.{writes};
ghost use Rattle.cal_call.specs.Inputs.{Makes};
ghost use Rattle.cal_call.specs.Refusals.{no_journal, refused_lines};
ghost use Rattle.cal_call.specs.Tasks.{SerialTask};

use crate::journal::make_run;
use crate::made::{Made, write_made};
use crate::outcome::Ended;
use crate::{Fault, INPUT_LIMIT, InputKind};
use cal_base::{ReadEnd, Sink, Source, read_all};
use cal_journal::{BothEnd, read_both_seeded};
use cal_script::{JournalText, Script};
use cal_seeds::Seeds;
use cal_valid::valid_script_law;
use std::alloc::Global;

/// Reads a script and a journal behind it, or none, and writes the text of the run.
pub fn serial<S: Source, W: Sink>(
    alloc: Global,
    seeds: Seeds,
    input: &mut S,
    output: &mut W,
) -> Ended
    ensures answers { Answers (Ok SerialTask) (change_of S.left S.faults input.old input.new)
        (change_of W.written W.faults output.old output.new) result.journal result.fault }
    ensures output { writes result.fault ≡ false → output.new ≡ output.old }
    ensures journal { writes result.fault ≡ false → result.journal ≡ no_journal }
{
    match made_run(alloc, seeds, input) {
        Ok(made) => {
            let fault = write_made(&made, output);
            Ended {
                fault,
                journal: made.journal,
            }
        }
        Err(fault) => Ended::without_journal(alloc, Some(fault)),
    }
}

/// The run of the script that the input has left, with the journal behind it, if there is one.
fn made_run<S: Source>(alloc: Global, seeds: Seeds, input: &mut S) -> Result<Made, Fault>
    ensures read { IfOk result (λ made. ReadsInput (change_of S.left S.faults input.old input.new)
        (λ bytes. Makes SerialTask bytes made.text made.journal)) }
    ensures refused { IfOk result (λ made. made.refused ≡ refused_lines made.journal) }

    // The cause lies in the input, whatever becomes of the output.
    ensures caused { IfErr result (λ fault. (output : Change) → Causes SerialTask
        (change_of S.left S.faults input.old input.new) output no_journal fault) }
{
    let (script, behind) = read_input(alloc, seeds, input)?;
    let made = make_run(alloc, seeds, script, behind)?;
    Ok(made)
}

/// Reads the script and the journal behind it that the input has left, and the end behind them.
fn read_input<S: Source>(
    alloc: Global,
    seeds: Seeds,
    input: &mut S,
) -> Result<(Script, Option<JournalText>), Fault>
    ensures read { IfOk result (λ both. ReadsInput
        (change_of S.left S.faults input.old input.new) (λ bytes. MeansBoth bytes both)) }
    ensures runnable { IfOk result (λ both. IsRunnable both.0) }

    // The cause lies in the input, whatever becomes of the output.
    ensures caused { IfErr result (λ fault. (output : Change) → Causes SerialTask
        (change_of S.left S.faults input.old input.new) output no_journal fault) }
{
    match read_all(alloc, input, INPUT_LIMIT) {
        Ok(bytes) => {
            let read = read_bytes(alloc, seeds, bytes.as_slice());
            give_back(bytes);
            read
        }
        Err(ReadEnd::ReadFault) => Err(Fault::ReadFault),
        Err(ReadEnd::TooLong) => Err(Fault::TooLong),
        Err(ReadEnd::OutOfMemory) => Err(Fault::OutOfMemory),
    }
}

/// The script and the journal that bytes mean, or their first fault.
fn read_bytes(
    alloc: Global,
    seeds: Seeds,
    bytes: &[u8],
) -> Result<(Script, Option<JournalText>), Fault>
    ensures read { IfOk result (λ both. MeansBoth bytes.now both) }
    ensures runnable { IfOk result (λ both. IsRunnable both.0) }

    // The cause of an input that was read as these bytes.
    ensures caused { IfErr result (λ fault. (input : Change) → (output : Change)
        → ReadsInput input (λ read. read ≡ bytes.now)
        → Causes SerialTask input output no_journal fault) }
{
    valid_script_law();
    match read_both_seeded(alloc, seeds, bytes) {
        Ok(both) => Ok(both),
        Err(BothEnd::Script { line, kind }) => Err(Fault::BadInput {
            line,
            kind: InputKind::Script(kind),
        }),
        Err(BothEnd::Journal { line, kind }) => Err(Fault::BadInput {
            line,
            kind: InputKind::Journal(kind),
        }),
        Err(BothEnd::OutOfMemory) => Err(Fault::OutOfMemory),
    }
}

/// Drops the input, shrunk first: where a big block is freed at once, glibc takes later ones from
/// its heap, in which each that outgrows its place leaves a hole.
pub fn give_back(mut bytes: Vec<u8>) {
    bytes.truncate(1);
    bytes.shrink_to_fit();
}
