ghost use Rattle.std.specs.Prelude.{◌≡◌, IfErr, IfOk};
ghost use Rattle.cal_read.specs.declared.end.StreamEnd.TheVariants.{OutOfMemory};
ghost use Rattle.cal_stream.specs.Readable.{AreReadable};

use crate::held::{see_length, see_record, see_rows};
use cal_read::{StreamEnd, one_reading, read_records};
use cal_value::Records;
use cal_write::cali_text;
use std::alloc::Global;

/// Writes records, and reads them again. Time and memory are those of the two calls.
pub fn read_back(alloc: Global, records: &Records) -> Result<Records, StreamEnd>
    ensures same { AreReadable records.now → IfOk result (λ read. read ≡ records.now) }
    ensures refused { AreReadable records.now → IfErr result (λ end. end ≡ OutOfMemory) }
{
    see_rows(&records.rows);
    see_record(&records.globals);
    one_reading();
    let text = cali_text(alloc, records)?;
    see_length(&text);
    read_records(alloc, text.as_str().as_bytes())
}
