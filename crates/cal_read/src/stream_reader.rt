ghost use Rattle.std.specs.Prelude.{◌≡◌, ◌<◌, ℕ, List, [], ◌∷◌, ◌++◌, length, Err, IfErr, IfOk};
ghost use Rattle.std.specs.Prelude.{IfSome, OnOk};
ghost use Rattle.cal_context.specs.Snapshots.{IsIn, meaning};
ghost use Rattle.cal_context.specs.Tree.{Tree, Grows};
ghost use Rattle.cal_line.specs.Lines.{HasNoNewline, lines_of};
ghost use Rattle.cal_read.specs.Lines.{bytes_in, rest_in};

use crate::StreamEnd;
use crate::end::LineEnd;
use crate::line::{Line, cut};
use crate::stream::Stream;
use cal_context::{Context, Snapshot, Taker};
use cal_line::Splitter;
use cal_value::OutOfMemory;
use std::alloc::Global;
use std::mem;

/// Reads a stream that comes in pieces. Its nodes go into a context, which is lent at each call and
/// must be the same one, and its rows to a taker. A line is looked at when its newline has come, or
/// at the end of the input.
#[derive(Drop)]
pub struct StreamReader {
    alloc: Global,
    splitter: Splitter,
    stream: Stream,
    // the line that has begun
    begun: Vec<u8>,
    // how many lines have ended
    lines: u64,
    refused: Option<StreamEnd>,
}

impl StreamReader {
    ghost use Rattle.cal_read.specs.Cuts.{ended_lines};
    ghost use Rattle.cal_read.specs.Reading.{Ends, HasEnded, HasRead, IsReady, IsRefusalOf};
    ghost use Rattle.cal_read.specs.Reading.{IsRefused, ReadsOn, TakesBytes, TakesEnd};
    ghost use Rattle.cal_read.specs.Stream.{IsStream};

    /// The reader of no bytes, whose context has the built-in nodes. What the stream chooses is hashed
    /// by the seeds of the context.
    pub fn new(alloc: Global, context: &mut Context) -> Result<StreamReader, OutOfMemory>
        ensures grows { Grows context.old context.new }
        ensures read { IfOk result (λ reader. HasRead reader context.new []) }
        ensures ready { IfOk result (λ reader. IsReady reader context.new) }
    {
        Ok(StreamReader {
            alloc,
            splitter: Splitter::new(alloc),
            stream: Stream::new(alloc, context)?,
            begun: Vec::new(alloc),
            lines: 0,
            refused: None,
        })
    }

    /// Reads a further piece, and has the rows of the lines that it ends taken, in order. Time is
    /// in the length of these lines. After a refusal every call answers that refusal again.
    pub fn feed<T: Taker>(
        &mut self,
        piece: &[u8],
        context: &mut Context,
        taker: &mut T,
    ) -> Result<(), StreamEnd>
        requires { IsReady self.old context.old }
        ensures ready { IsReady self.new context.new }
        ensures grows { Grows context.old context.new }
        ensures read { OnOk result ((bytes : List ℕ) → HasRead self.old context.old bytes
            → HasRead self.new context.new (bytes ++ piece.now)) }
        ensures taken { OnOk result ((bytes : List ℕ) → HasRead self.old context.old bytes
            → TakesBytes (T.has_taken taker.old context.old) (T.has_taken taker.new context.new)
            bytes (bytes ++ piece.now)) }
        ensures fault { IfErr result (λ end. (bytes : List ℕ) → HasRead self.old context.old bytes
            → IsRefusalOf (ended_lines (bytes ++ piece.now)) end) }
        ensures refused { IfErr result (IsRefused self.new) }
        ensures again { (end : StreamEnd) → IsRefused self.old end → result ≡ Err end }
        ensures about { OnOk result (T.about taker.new ≡ T.about taker.old) }
    {
        if let Some(end) = self.refused {
            return Err(end);
        }
        match self.feed_lines(piece, context, taker) {
            Ok(()) => Ok(()),
            Err(end) => {
                self.refused = Some(end);
                Err(end)
            }
        }
    }

    /// The end of the input, which ends a line that has begun. It gives the globals, and the reader
    /// is of no more use then.
    pub fn finish<T: Taker>(
        &mut self,
        context: &mut Context,
        taker: &mut T,
    ) -> Result<Snapshot, StreamEnd>
        requires { IsReady self.old context.old }
        ensures grows { Grows context.old context.new }
        ensures within { IfOk result (IsIn context.new) }
        ensures globals { IfOk result (λ globals. (bytes : List ℕ)
            → HasRead self.old context.old bytes → Ends bytes (meaning context.new globals)) }
        ensures taken { OnOk result ((bytes : List ℕ) → HasRead self.old context.old bytes
            → TakesEnd (T.has_taken taker.old context.old) (T.has_taken taker.new context.new)
            bytes) }
        ensures fault { IfErr result (λ end. (bytes : List ℕ) → HasRead self.old context.old bytes
            → IsRefusalOf (lines_of bytes) end) }
        ensures refused { IfErr result (IsRefused self.new) }
        ensures again { (end : StreamEnd) → IsRefused self.old end → result ≡ Err end }
        ensures about { OnOk result (T.about taker.new ≡ T.about taker.old) }
    {
        if let Some(end) = self.refused {
            return Err(end);
        }
        if let Err(end) = self.end_last(context, taker) {
            self.refused = Some(end);
            return Err(end);
        }
        Ok(mem::replace(&mut self.stream.globals, Snapshot::new(self.alloc)))
    }

    /// Refuses from now on.
    pub(crate) fn refuse(&mut self, end: StreamEnd)
        ensures { IsRefused self.new end }
    {
        self.refused = Some(end);
    }

    fn feed_lines<T: Taker>(
        &mut self,
        piece: &[u8],
        context: &mut Context,
        taker: &mut T,
    ) -> Result<(), StreamEnd>
        requires { (bytes : List ℕ) × HasRead self.old context.old bytes }
        ensures grows { Grows context.old context.new }
        ensures read { OnOk result ((bytes : List ℕ) → HasRead self.old context.old bytes
            → HasRead self.new context.new (bytes ++ piece.now)) }
        ensures taken { OnOk result ((bytes : List ℕ) → HasRead self.old context.old bytes
            → TakesBytes (T.has_taken taker.old context.old) (T.has_taken taker.new context.new)
            bytes (bytes ++ piece.now)) }
        ensures fault { IfErr result (λ end. (bytes : List ℕ) → HasRead self.old context.old bytes
            → IsRefusalOf (ended_lines (bytes ++ piece.now)) end) }
        ensures about { OnOk result (T.about taker.new ≡ T.about taker.old) }
    {
        let mut rest = Line::of(piece);
        while let Some((line, after)) = rest.ended() {
            self.end_line(line, context, taker)?;
            rest = self.end_rows(after, context, taker)?;
        }
        self.begin(rest.bytes())
    }

    /// Reads the rows that stand in the usual form at the front of these bytes, where no line has
    /// begun, and answers what stands behind them.
    #[inline(always)]
    fn end_rows<'a, T: Taker>(
        &mut self,
        all: Line<'a>,
        context: &Context,
        taker: &mut T,
    ) -> Result<Line<'a>, StreamEnd>
        requires { (bytes : List ℕ) × HasRead self.old context.now bytes }
        ensures read { IfOk result (λ rest. ReadsOn (T.has_taken taker.old context.now)
            (T.has_taken taker.new context.now) self.old self.new context.now
            (bytes_in all.entry) (bytes_in rest)) }
        ensures memory { IfErr result (λ end. end ≡ StreamEnd.OutOfMemory) }
        ensures about { OnOk result (T.about taker.new ≡ T.about taker.old) }
    {
        let mut rest = all;
        while let Some(after) = self.end_row(rest, context, taker)? {
            rest = after;
        }
        Ok(rest)
    }

    /// Reads the row that stands in the usual form at the front of these bytes, if one does, and
    /// answers what stands behind it.
    #[inline(always)]
    fn end_row<'a, T: Taker>(
        &mut self,
        all: Line<'a>,
        context: &Context,
        taker: &mut T,
    ) -> Result<Option<Line<'a>>, StreamEnd>
        requires { (bytes : List ℕ) × HasRead self.old context.now bytes }
        ensures shorter { IfOk result (λ next. IfSome next (λ rest.
            length (bytes_in rest) < length (bytes_in all.entry))) }
        ensures read { IfOk result (λ next. ReadsOn (T.has_taken taker.old context.now)
            (T.has_taken taker.new context.now) self.old self.new context.now
            (bytes_in all.entry) (rest_in all.entry next)) }
        ensures memory { IfErr result (λ end. end ≡ StreamEnd.OutOfMemory) }
        ensures about { OnOk result (T.about taker.new ≡ T.about taker.old) }
    {
        let Line::Text(text) = all else {
            return Ok(None);
        };
        if !self.begun.as_slice().is_empty() {
            return Ok(None);
        }
        if self.lines == u64::MAX {
            return Ok(None);
        }
        let Some(end) = self.stream.read_front(self.alloc, text, context, taker)? else {
            return Ok(None);
        };
        self.lines += 1;
        let (_, rest) = cut(text, end);
        Ok(Some(Line::Text(rest)))
    }

    /// Ends the line that has begun, if one has.
    fn end_last<T: Taker>(&mut self, context: &mut Context, taker: &mut T) -> Result<(), StreamEnd>
        requires { (bytes : List ℕ) × HasRead self.old context.old bytes }
        ensures grows { Grows context.old context.new }
        ensures ended { OnOk result ((bytes : List ℕ) → HasRead self.old context.old bytes
            → HasEnded self.new context.new bytes) }
        ensures taken { OnOk result ((bytes : List ℕ) → HasRead self.old context.old bytes
            → TakesEnd (T.has_taken taker.old context.old) (T.has_taken taker.new context.new)
            bytes) }
        ensures fault { IfErr result (λ end. (bytes : List ℕ) → HasRead self.old context.old bytes
            → IsRefusalOf (lines_of bytes) end) }
        ensures about { OnOk result (T.about taker.new ≡ T.about taker.old) }
    {
        if self.begun.as_slice().is_empty() {
            return Ok(());
        }
        self.end_begun(context, taker)
    }

    /// Goes on with the line that has begun.
    fn begin(&mut self, part: &[u8]) -> Result<(), StreamEnd>
        requires { HasNoNewline part.now }
        ensures read { OnOk result ((t : Tree) (bytes : List ℕ) → HasRead self.old t bytes
            → HasRead self.new t (bytes ++ part.now)) }
        ensures memory { IfErr result (λ end. end ≡ StreamEnd.OutOfMemory) }
    {
        self.begun.extend_from_slice(part)?;
        Ok(())
    }

    /// Reads the line that ends with this part. Where no line has begun, none of it is copied.
    #[inline(always)]
    fn end_line<T: Taker>(
        &mut self,
        part: Line,
        context: &mut Context,
        taker: &mut T,
    ) -> Result<(), StreamEnd>
        requires part { HasNoNewline (bytes_in part) }
        requires read { (bytes : List ℕ) × HasRead self.old context.old bytes }
        ensures grows { Grows context.old context.new }
        ensures read { OnOk result ((bytes : List ℕ) → HasRead self.old context.old bytes
            → HasRead self.new context.new ((bytes ++ bytes_in part.entry) ++ 10 ∷ [])) }
        ensures taken { OnOk result ((bytes : List ℕ) → HasRead self.old context.old bytes
            → TakesBytes (T.has_taken taker.old context.old) (T.has_taken taker.new context.new)
            bytes ((bytes ++ bytes_in part.entry) ++ 10 ∷ [])) }
        ensures fault { IfErr result (λ end. (bytes : List ℕ) → HasRead self.old context.old bytes
            → IsRefusalOf (ended_lines ((bytes ++ bytes_in part.entry) ++ 10 ∷ [])) end) }
        ensures about { OnOk result (T.about taker.new ≡ T.about taker.old) }
    {
        if self.begun.as_slice().is_empty() {
            return self.read_line(part, context, taker);
        }
        self.begin(part.bytes())?;
        self.end_begun(context, taker)
    }

    /// Reads the line that has begun, which ends here.
    #[inline(never)]
    fn end_begun<T: Taker>(&mut self, context: &mut Context, taker: &mut T) -> Result<(), StreamEnd>
        requires { (bytes : List ℕ) × HasRead self.old context.old bytes }
        ensures grows { Grows context.old context.new }
        ensures read { OnOk result ((bytes : List ℕ) → HasRead self.old context.old bytes
            → HasRead self.new context.new (bytes ++ 10 ∷ [])) }
        ensures taken { OnOk result ((bytes : List ℕ) → HasRead self.old context.old bytes
            → TakesBytes (T.has_taken taker.old context.old) (T.has_taken taker.new context.new)
            bytes (bytes ++ 10 ∷ [])) }
        ensures fault { IfErr result (λ end. (bytes : List ℕ) → HasRead self.old context.old bytes
            → IsRefusalOf (ended_lines (bytes ++ 10 ∷ [])) end) }
        ensures about { OnOk result (T.about taker.new ≡ T.about taker.old) }
    {
        let line = mem::replace(&mut self.begun, Vec::new(self.alloc));
        self.read_line(Line::Bytes(line.as_slice()), context, taker)?;
        self.begun = line;
        self.begun.clear();
        Ok(())
    }

    /// Reads a line, where none has begun.
    #[inline(always)]
    fn read_line<T: Taker>(
        &mut self,
        line: Line,
        context: &mut Context,
        taker: &mut T,
    ) -> Result<(), StreamEnd>
        requires line { HasNoNewline (bytes_in line) }
        requires none { self.old.begun.items ≡ [] }
        requires read { (bytes : List ℕ) × HasRead self.old context.old bytes }
        ensures grows { Grows context.old context.new }
        ensures none { OnOk result (self.new.begun.items ≡ []) }
        ensures read { OnOk result ((bytes : List ℕ) → HasRead self.old context.old bytes
            → HasRead self.new context.new ((bytes ++ bytes_in line.entry) ++ 10 ∷ [])) }
        ensures taken { OnOk result ((bytes : List ℕ) → HasRead self.old context.old bytes
            → TakesBytes (T.has_taken taker.old context.old) (T.has_taken taker.new context.new)
            bytes ((bytes ++ bytes_in line.entry) ++ 10 ∷ [])) }
        ensures fault { IfErr result (λ end. (bytes : List ℕ) → HasRead self.old context.old bytes
            → IsRefusalOf (ended_lines ((bytes ++ bytes_in line.entry) ++ 10 ∷ [])) end) }
        ensures about { OnOk result (T.about taker.new ≡ T.about taker.old) }
    {
        if self.lines == u64::MAX {
            return Err(StreamEnd::OutOfMemory);
        }
        let number = self.lines + 1;
        match self
            .stream
            .read_line(self.alloc, &mut self.splitter, line, context, taker)
        {
            Ok(()) => {}
            Err(LineEnd::Bad(kind)) => return Err(StreamEnd::BadLine { line: number, kind }),
            Err(LineEnd::OutOfMemory) => return Err(StreamEnd::OutOfMemory),
        }
        self.lines = number;
        Ok(())
    }
}
