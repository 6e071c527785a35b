ghost use Rattle.std.specs.Prelude.{OnOk, OnErr};
ghost use Rattle.std.specs.Io.KnownBytes.{Appends};
ghost use Rattle.cal_base.specs.Standard.{GrowsByFront};

use crate::{Failed, Sink};
use std::io::{ErrorKind, Write};

/// A sink over a writer of std. It counts a fault at each `Err`, save where a signal interrupts a
/// write, and where a write takes nothing of a piece. It tells nothing of the bytes written.
#[derive(Drop)]
pub struct StdSink<W> {
    writer: W,
    faults: u64,
}

impl<W: Write + Drop> StdSink<W> {
    ghost use Rattle.std.specs.Prelude.{◌≡◌};
    ghost use Rattle.cal_base.specs.Standard.{writer_of, faults_written};

    /// A sink over this writer, without a fault.
    pub fn new(writer: W) -> Self
        ensures over { writer_of result ≡ writer }
        ensures faults { faults_written result ≡ 0 }
    {
        StdSink { writer, faults: 0 }
    }
}

impl<W: Write + Drop> Sink for StdSink<W> {
    ghost use Rattle.std.specs.Prelude.{◌≡◌, None, OnOk, OnErr, is_ok};
    ghost use Rattle.std.specs.Io.KnownBytes.{Appends};
    ghost use Rattle.cal_base.specs.Faults.{HasCause, faults_after};
    ghost use Rattle.cal_base.specs.Standard.{writer_of, faults_written, GrowsByFront};

    ghost written = { λ _. None };

    ghost faults = { λ s. faults_written s };

    fn put(&mut self, bytes: &[u8]) -> Result<(), Failed>
        ensures cause { HasCause (faults_written self.old) (faults_written self.new) result }

        // It counts a fault exactly where it fails.
        ensures counted { faults_written self.new
            ≡ faults_after (is_ok result) (faults_written self.old) }

        // What the writer tells of its bytes holds here too: all of them, or some front.
        ensures told { OnOk result (Appends (W.contents (writer_of self.old))
            (W.contents (writer_of self.new)) bytes.now) }
        ensures told_front { OnErr result (GrowsByFront (W.contents (writer_of self.old))
            (W.contents (writer_of self.new)) bytes.now) }
    {
        let result = write_whole(&mut self.writer, bytes);
        self.faults = self.faults.saturating_add(u64::from(result.is_err()));
        result
    }
}

/// Writes all of a piece, and has the writer hand it on.
fn write_whole<W: Write>(writer: &mut W, bytes: &[u8]) -> Result<(), Failed>
    ensures ok { OnOk result (Appends (W.contents writer.old) (W.contents writer.new) bytes.now) }
    ensures front { OnErr result (GrowsByFront (W.contents writer.old)
        (W.contents writer.new) bytes.now) }
{
    write_retrying(writer, bytes)?;
    writer.flush().map_err(|_| Failed)
}

/// Writes all of a piece. A write is tried again where a signal interrupts it, and there are at
/// most 2^64 - 1 of them.
fn write_retrying<W: Write>(writer: &mut W, bytes: &[u8]) -> Result<(), Failed>
    ensures ok { OnOk result (Appends (W.contents writer.old) (W.contents writer.new) bytes.now) }
    ensures front { OnErr result (GrowsByFront (W.contents writer.old)
        (W.contents writer.new) bytes.now) }
{
    let mut done = 0;
    for _ in 0..u64::MAX {
        if done == bytes.len() {
            return Ok(());
        }
        match writer.write(&bytes[done..]) {
            Ok(0) => return Err(Failed),
            Ok(count) => done += count,
            Err(error) => {
                if error.kind() != ErrorKind::Interrupted {
                    return Err(Failed);
                }
            }
        }
    }
    Err(Failed)
}
