//! The run of a script by the journal that it uses, as a text.
ghost use Rattle.std.specs.Prelude.{◌≡◌, IfErr, IfOk, None, Some};
ghost use Rattle.cal_records.specs.Records.{records_of};
ghost use Rattle.cal_records.specs.Told.{CountsRefused};
ghost use Rattle.cal_lawful.specs.Broken.{IsLawfulText};
ghost use Rattle.cal_run.specs.Plain.{plain};
ghost use Rattle.cal_run.specs.Seeing.{CanBeRead};
ghost use Rattle.cal_script.specs.Valid.{IsRunnable};
ghost use Rattle.cal_write.specs.CanonicalText.{canonical_text};
ghost use Rattle.cal_call.specs.Refusals.{refused_lines};
ghost use Rattle.cal_call.specs.Runs.{CannotUse, Uses};
ghost use Rattle.cal_call.specs.Written.{IsWritten};

use crate::counting::count_refused;
use crate::made::Made;
use crate::running::{plain_text, run_text};
use crate::{Fault, InputKind, UsedJournal};
use cal_lawful::{CoreEnd, check_journal};
use cal_run::{lawful_journal_law, plain_journal, plain_journal_law};
use cal_script::{Journal, JournalText, Script};
use cal_seeds::Seeds;
use cal_value::{OutOfMemory, Text};
use std::alloc::Global;

/// The text of a run's records, and how many of its lines were refused.
#[derive(Drop)]
struct Written {
    text: Text,
    refused: u64,
}

/// Makes a run by the journal that it uses: the one behind its script, which is to be lawful, or
/// else that of the threads one after another.
pub fn make_run(
    alloc: Global,
    seeds: Seeds,
    script: Script,
    behind: Option<JournalText>,
) -> Result<Made, Fault>
    requires { IsRunnable script }
    ensures used { IfOk result (λ made. Uses script behind made.journal) }
    ensures text { IfOk result (λ made. made.text
        ≡ canonical_text (records_of script made.journal)) }
    ensures refused { IfOk result (λ made. made.refused ≡ refused_lines made.journal) }
    ensures fault { IfErr result (λ fault. CannotUse script behind fault) }
{
    match behind {
        None => plain_one(alloc, seeds, script),
        Some(text) => lawful_one(alloc, seeds, script, text),
    }
}

/// Makes the run of the threads one after another. No note is kept of a line.
fn plain_one(alloc: Global, seeds: Seeds, script: Script) -> Result<Made, Fault>
    requires { IsRunnable script }
    ensures used { IfOk result (λ made. Uses script None made.journal) }
    ensures text { IfOk result (λ made. made.text
        ≡ canonical_text (records_of script made.journal)) }
    ensures refused { IfOk result (λ made. made.refused ≡ refused_lines made.journal) }
    ensures fault { IfErr result (λ fault. CannotUse script None fault) }
{
    match plain_written(alloc, seeds, &script) {
        Ok(written) => Ok(Made {
            text: written.text,
            journal: UsedJournal::plain(script),
            refused: written.refused,
        }),
        Err(OutOfMemory) => Err(Fault::OutOfMemory),
    }
}

/// Writes the run of the threads one after another.
fn plain_written(alloc: Global, seeds: Seeds, script: &Script) -> Result<Written, OutOfMemory>
    requires { IsRunnable script.now }
    ensures { IfOk result (IsWritten script.now (plain script.now)) }
{
    let (text, counted) = plain_text(alloc, seeds, script)?;
    let refused = refused_of_plain(alloc, script, counted)?;
    Ok(Written { text, refused })
}

/// How many lines of the threads one after another are refused, where that wasn't counted yet: then
/// no channel was run.
fn refused_of_plain(
    alloc: Global,
    script: &Script,
    counted: Option<u64>,
) -> Result<u64, OutOfMemory>
    requires runnable { IsRunnable script.now }
    requires counted { CountsRefused script.now counted }
    ensures { IfOk result (λ refused. refused ≡ refused_lines (plain script.now)) }
{
    plain_journal_law();
    match counted {
        Some(refused) => Ok(refused),
        None => {
            let journal = plain_journal(alloc, script)?;
            Ok(count_refused(&journal))
        }
    }
}

/// Makes the run by a journal behind its script, if it is lawful.
fn lawful_one(alloc: Global, seeds: Seeds, script: Script, text: JournalText) -> Result<Made, Fault>
    requires { IsRunnable script }
    ensures used { IfOk result (λ made. Uses script (Some text) made.journal) }
    ensures text { IfOk result (λ made. made.text
        ≡ canonical_text (records_of script made.journal)) }
    ensures refused { IfOk result (λ made. made.refused ≡ refused_lines made.journal) }
    ensures fault { IfErr result (λ fault. CannotUse script (Some text) fault) }
{
    let written = lawful_written(alloc, seeds, &script, &text);
    drop(script);
    match written {
        Ok(written) => Ok(Made {
            text: written.text,
            journal: UsedJournal::given(text.journal),
            refused: written.refused,
        }),
        Err(fault) => Err(fault),
    }
}

/// Writes the run by a journal behind its script, if it is lawful.
fn lawful_written(
    alloc: Global,
    seeds: Seeds,
    script: &Script,
    text: &JournalText,
) -> Result<Written, Fault>
    requires { IsRunnable script.now }
    ensures lawful { IfOk result (λ written. IsLawfulText script.now text.now) }
    ensures written { IfOk result (IsWritten script.now text.now.journal) }
    ensures fault { IfErr result (λ fault. CannotUse script.now (Some text.now) fault) }
{
    lawful_journal_law();
    match check_journal(alloc, seeds, script, text) {
        Ok(()) => match given_written(alloc, seeds, script, &text.journal) {
            Ok(written) => Ok(written),
            Err(OutOfMemory) => Err(Fault::OutOfMemory),
        },
        Err(CoreEnd::JournalFault { line, kind }) => Err(Fault::BadInput {
            line,
            kind: InputKind::Journal(kind),
        }),
        Err(CoreEnd::OutOfMemory) => Err(Fault::OutOfMemory),
    }
}

/// Writes the run by a journal by which it can be read.
fn given_written(
    alloc: Global,
    seeds: Seeds,
    script: &Script,
    journal: &Journal,
) -> Result<Written, OutOfMemory>
    requires runnable { IsRunnable script.now }
    requires read { CanBeRead script.now journal.now }
    ensures { IfOk result (IsWritten script.now journal.now) }
{
    let text = run_text(alloc, seeds, script, journal)?;
    Ok(Written {
        text,
        refused: count_refused(journal),
    })
}
