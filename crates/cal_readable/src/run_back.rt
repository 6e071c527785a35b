ghost use Rattle.std.specs.Prelude.{◌≡◌, IfErr, IfOk};
ghost use Rattle.cal_read.specs.declared.end.StreamEnd.TheVariants.{OutOfMemory};
ghost use Rattle.cal_records.specs.Records.{records_of};
ghost use Rattle.cal_run.specs.Seeing.{CanBeRead};
ghost use Rattle.cal_script.specs.Valid.{IsRunnable};

use crate::laws::readable_records_law;
use crate::readings::see_readings;
use cal_read::StreamEnd;
use cal_records::run_records;
use cal_script::{Journal, Script};
use cal_stream::read_back;
use cal_value::Records;
use std::alloc::Global;

/// Writes the records of a run, and reads them again. Time and memory are those of the calls.
pub fn run_read_back(
    alloc: Global,
    script: &Script,
    journal: &Journal,
) -> Result<Records, StreamEnd>
    requires runnable { IsRunnable script.now }
    requires read { CanBeRead script.now journal.now }
    ensures same { IfOk result (λ read. read ≡ records_of script.now journal.now) }
    ensures refused { IfErr result (λ end. end ≡ OutOfMemory) }
{
    see_readings(journal);
    readable_records_law();
    let records = run_records(alloc, script, journal)?;
    read_back(alloc, &records)
}
