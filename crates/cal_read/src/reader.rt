ghost use Rattle.std.specs.Prelude.{◌≡◌, ℕ, List, [], ◌++◌, Err, IfErr, IfOk, OnErr, OnOk};
ghost use Rattle.cal_line.specs.Lines.{lines_of};

use crate::{StreamEnd, StreamReader};
use cal_context::{Context, Taken, expand};
use cal_seeds::Seeds;
use cal_value::{OutOfMemory, Rec, Seq};
use std::alloc::Global;
use std::mem;

/// Reads a stream that comes in pieces, and gives its records with entries of their own. A line is
/// looked at when its newline has come, or at the end of the input.
#[derive(Drop)]
pub struct Reader {
    alloc: Global,
    context: Context,
    reader: StreamReader,
}

impl Reader {
    ghost use Rattle.cal_read.specs.Cuts.{ended_lines};
    ghost use Rattle.cal_read.specs.Owned.{AppendsRows, HasReadOwned, IsOwnedReady, IsOwnedRefused};
    ghost use Rattle.cal_read.specs.Reading.{Ends, IsRefusalOf, rows_before, rows_of_lines};

    /// The reader of no bytes. What the stream chooses is hashed by numbers that everybody knows.
    pub fn new(alloc: Global) -> Result<Reader, OutOfMemory>
        ensures read { IfOk result (λ reader. HasReadOwned reader []) }
        ensures ready { IfOk result IsOwnedReady }
    {
        Reader::seeded(alloc, Seeds::fixed())
    }

    /// The reader of no bytes, where what the stream chooses is hashed by the seeds of a run.
    pub fn seeded(alloc: Global, seeds: Seeds) -> Result<Reader, OutOfMemory>
        ensures read { IfOk result (λ reader. HasReadOwned reader []) }
        ensures ready { IfOk result IsOwnedReady }
    {
        let mut context = Context::seeded(alloc, seeds);
        let reader = StreamReader::new(alloc, &mut context)?;
        Ok(Reader {
            alloc,
            context,
            reader,
        })
    }

    /// Reads a further piece, and appends the rows of the lines that it ends. An `Err` leaves
    /// `out`, and every later call answers it again.
    pub fn feed(&mut self, piece: &[u8], out: &mut Seq<Rec>) -> Result<(), StreamEnd>
        requires { IsOwnedReady self.old }
        ensures ready { IsOwnedReady self.new }
        ensures read { OnOk result ((bytes : List ℕ) → HasReadOwned self.old bytes
            → HasReadOwned self.new (bytes ++ piece.now)) }
        ensures rows { OnOk result ((bytes : List ℕ) → HasReadOwned self.old bytes
            → AppendsRows out.old out.new (rows_before bytes) (rows_before (bytes ++ piece.now))) }
        ensures fault { IfErr result (λ end. (bytes : List ℕ) → HasReadOwned self.old bytes
            → IsRefusalOf (ended_lines (bytes ++ piece.now)) end) }
        ensures left { OnErr result (out.new ≡ out.old) }
        ensures refused { IfErr result (IsOwnedRefused self.new) }
        ensures again { (end : StreamEnd) → IsOwnedRefused self.old end → result ≡ Err end }
    {
        let mut taken = Taken::new(self.alloc);
        self.reader.feed(piece, &mut self.context, &mut taken)?;
        if append(self.alloc, out, taken.into_rows()).is_err() {
            self.reader.refuse(StreamEnd::OutOfMemory);
            return Err(StreamEnd::OutOfMemory);
        }
        Ok(())
    }

    /// The end of the input, which ends a line that has begun. It gives the globals, and the reader
    /// is of no more use then. An `Err` leaves `out`, and every later call answers it again.
    pub fn finish(&mut self, out: &mut Seq<Rec>) -> Result<Rec, StreamEnd>
        requires { IsOwnedReady self.old }
        ensures globals { IfOk result (λ globals. (bytes : List ℕ) → HasReadOwned self.old bytes
            → Ends bytes globals) }
        ensures rows { OnOk result ((bytes : List ℕ) → HasReadOwned self.old bytes
            → AppendsRows out.old out.new (rows_before bytes) (rows_of_lines (lines_of bytes))) }
        ensures fault { IfErr result (λ end. (bytes : List ℕ) → HasReadOwned self.old bytes
            → IsRefusalOf (lines_of bytes) end) }
        ensures left { OnErr result (out.new ≡ out.old) }
        ensures refused { IfErr result (IsOwnedRefused self.new) }
        ensures again { (end : StreamEnd) → IsOwnedRefused self.old end → result ≡ Err end }
    {
        let mut taken = Taken::new(self.alloc);
        let globals = self.reader.finish(&mut self.context, &mut taken)?;
        let Ok(globals) = expand(self.alloc, &self.context, &globals) else {
            self.reader.refuse(StreamEnd::OutOfMemory);
            return Err(StreamEnd::OutOfMemory);
        };
        if append(self.alloc, out, taken.into_rows()).is_err() {
            self.reader.refuse(StreamEnd::OutOfMemory);
            return Err(StreamEnd::OutOfMemory);
        }
        Ok(globals)
    }
}

/// Appends rows. An `Err` leaves `out`.
fn append(alloc: Global, out: &mut Seq<Rec>, rows: Seq<Rec>) -> Result<(), OutOfMemory>
    ensures ok { OnOk result (out.new ≡ out.old ++ rows) }
    ensures err { OnErr result (out.new ≡ out.old) }
{
    let mut items = mem::replace(out, Seq::new(alloc)).into_vec();
    let result = items.append(&mut rows.into_vec());
    *out = Seq::from_vec(items);
    result?;
    Ok(())
}
