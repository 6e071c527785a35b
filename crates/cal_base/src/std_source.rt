ghost use Rattle.std.specs.Prelude.{◌≡◌};
ghost use Rattle.std.specs.Io.{ReadsAtMost};
ghost use Rattle.std.specs.Io.KnownBytes.{ReadConsumes};

use crate::{Failed, Source};
use std::io::{ErrorKind, Read};

/// A source over a reader of std. It counts a fault at each `Err`, save where a signal interrupts
/// it, and tells nothing of the bytes left.
#[derive(Drop)]
pub struct StdSource<R> {
    reader: R,
    faults: u64,
}

impl<R: Read + Drop> StdSource<R> {
    ghost use Rattle.cal_base.specs.Standard.{reader_of, faults_read};

    /// A source over this reader, without a fault.
    pub fn new(reader: R) -> Self
        ensures over { reader_of result ≡ reader }
        ensures faults { faults_read result ≡ 0 }
    {
        StdSource { reader, faults: 0 }
    }
}

impl<R: Read + Drop> Source for StdSource<R> {
    ghost use Rattle.std.specs.Prelude.{◌<◌, None, is_ok, length};
    ghost use Rattle.std.specs.Io.{ReadsAtMost};
    ghost use Rattle.std.specs.Io.KnownBytes.{ReadConsumes};
    ghost use Rattle.cal_base.specs.Faults.{HasCause, faults_after};
    ghost use Rattle.cal_base.specs.Standard.{reader_of, faults_read};

    ghost left = { λ _. None };

    ghost faults = { λ s. faults_read s };

    fn read(&mut self, buf: &mut [u8]) -> Result<usize, Failed>
        requires { 0 < length buf.old }
        ensures bound { ReadsAtMost result buf.new }
        ensures cause { HasCause (faults_read self.old) (faults_read self.new) result }

        // It counts a fault exactly where it fails.
        ensures counted { faults_read self.new
            ≡ faults_after (is_ok result) (faults_read self.old) }

        // What the reader tells of its bytes holds here too.
        ensures told { ReadConsumes (R.remaining (reader_of self.old))
            (R.remaining (reader_of self.new)) result buf.new }
    {
        let result = read_retrying(&mut self.reader, buf);
        self.faults = self.faults.saturating_add(u64::from(result.is_err()));
        result
    }
}

/// One read, tried again where a signal interrupts it, and at most 2^64 - 1 times.
fn read_retrying<R: Read>(reader: &mut R, buf: &mut [u8]) -> Result<usize, Failed>
    ensures bound { ReadsAtMost result buf.new }
    ensures told { ReadConsumes (R.remaining reader.old) (R.remaining reader.new) result buf.new }
{
    for _ in 0..u64::MAX {
        match reader.read(buf) {
            Ok(count) => return Ok(count),
            Err(error) => {
                if error.kind() != ErrorKind::Interrupted {
                    return Err(Failed);
                }
            }
        }
    }
    Err(Failed)
}
