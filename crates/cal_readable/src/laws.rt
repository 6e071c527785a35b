//! Laws of what runs write. Nothing here is ever run.

ghost use Rattle.cal_read.specs.Stream.{IsStreamOf};
ghost use Rattle.cal_records.specs.Records.{records_of};
ghost use Rattle.cal_run.specs.Entries.{HasReadings};
ghost use Rattle.cal_script.specs.Valid.{IsRunnable};
ghost use Rattle.cal_script.specs.declared.journal.Journal.{Journal};
ghost use Rattle.cal_script.specs.declared.script.Script.{Script};
ghost use Rattle.cal_stream.specs.Readable.{AreHeld, AreReadable};
ghost use Rattle.cal_write.specs.CanonicalText.{canonical_text};

use cal_stream::records_read_back;

/// The law of a run's records: they can be written and read again, by whatever journal.
pub fn readable_records_law()
    ensures { (script : Script) (journal : Journal) → IsRunnable script → HasReadings journal
        → AreReadable (records_of script journal) }
{}

/// The law of what a run writes: its canonical text reads back as its records. That a program can
/// hold the records is asked, as their types say.
pub fn run_reads_back_law()
    ensures { (script : Script) (journal : Journal) → IsRunnable script → HasReadings journal
        → AreHeld (records_of script journal)
        → IsStreamOf (canonical_text (records_of script journal)) (records_of script journal) }
{
    records_read_back();
}
