ghost use Rattle.std.specs.Prelude.{[], IfErr, IfOk};
ghost use Rattle.cal_line.specs.Lines.{lines_of};
ghost use Rattle.cal_read.specs.Owned.{HasReadOwned, IsOwnedReady};
ghost use Rattle.cal_read.specs.Reading.{IsRefusalOf};
ghost use Rattle.cal_read.specs.Stream.{IsStreamOf};

use crate::{Reader, StreamEnd};
use cal_value::{Records, Seq};
use std::alloc::Global;

/// The records of a stream. Time is in its length, and memory in that of its records.
pub fn read_records(alloc: Global, bytes: &[u8]) -> Result<Records, StreamEnd>
    ensures read { IfOk result (IsStreamOf bytes.now) }
    ensures fault { IfErr result (IsRefusalOf (lines_of bytes.now)) }
{
    let mut reader = Reader::new(alloc)?;
    read_all(alloc, &mut reader, bytes)
}

/// The records of a stream, by a reader of no bytes.
fn read_all(alloc: Global, reader: &mut Reader, bytes: &[u8]) -> Result<Records, StreamEnd>
    requires ready { IsOwnedReady reader.old }
    requires read { HasReadOwned reader.old [] }
    ensures read { IfOk result (IsStreamOf bytes.now) }
    ensures fault { IfErr result (IsRefusalOf (lines_of bytes.now)) }
{
    let mut rows = Seq::new(alloc);
    reader.feed(bytes, &mut rows)?;
    let globals = reader.finish(&mut rows)?;
    Ok(Records { rows, globals })
}
