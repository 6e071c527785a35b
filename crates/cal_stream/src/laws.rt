ghost use Rattle.cal_read.specs.Stream.{IsStreamOf};
ghost use Rattle.cal_stream.specs.Readable.{AreHeld, AreReadable};
ghost use Rattle.cal_value.specs.declared.record.Records.{Records};
ghost use Rattle.cal_write.specs.CanonicalText.{canonical_text};

/// The canonical text of records reads back as them, rows and globals.
pub fn records_read_back()
    ensures { (records : Records) → AreHeld records → AreReadable records
        → IsStreamOf (canonical_text records) records }
{}
