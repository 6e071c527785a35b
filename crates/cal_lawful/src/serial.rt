ghost use Rattle.std.specs.Prelude.{◌≡◌, IfErr, IfOk, OnOk};
ghost use Rattle.cal_lawful.specs.Broken.{IsLawfulText};
ghost use Rattle.cal_lawful.specs.Checking.{IsRefusalOf};
ghost use Rattle.cal_lawful.specs.Profiles.{ProfilesAnswer};
ghost use Rattle.cal_records.specs.Records.{records_of};
ghost use Rattle.cal_script.specs.Reading.{IsValidScript};
ghost use Rattle.cal_script.specs.Valid.{IsRunnable};

use crate::{CoreEnd, check_journal};
use cal_records::run_records;
use cal_run::lawful_journal_law;
use cal_script::{JournalText, Script};
use cal_seeds::Seeds;
use cal_value::Records;
use std::alloc::Global;

/// The records of a run whose journal was read, or the first rule that the journal breaks. It takes
/// time in the lengths of all paths. Where the script is a valid one, the records of a channel's
/// groups answer for its snapshots in each query that asks no more than the channel keeps.
pub fn run_serial(alloc: Global, script: &Script, text: &JournalText) -> Result<Records, CoreEnd>
    requires { IsRunnable script.now }
    ensures lawful { OnOk result (IsLawfulText script.now text.now) }
    ensures records { IfOk result (λ records. records ≡ records_of script.now text.now.journal) }
    ensures profiles { OnOk result
        (IsValidScript script.now → ProfilesAnswer script.now text.now.journal) }
    ensures refused { IfErr result (IsRefusalOf script.now text.now) }
{
    check_journal(alloc, Seeds::fixed(), script, text)?;
    lawful_journal_law();
    let records = run_records(alloc, script, &text.journal)?;
    Ok(records)
}
