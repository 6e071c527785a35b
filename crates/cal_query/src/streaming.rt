ghost use Rattle.std.specs.Prelude.{◌≡◌, [], ◌++◌, ℕ, List, None, IfOk, IfErr, OnOk};
ghost use Rattle.cal_base.specs.Change.{change_of};
ghost use Rattle.cal_base.specs.ReadEnds.{ReadsAll};
ghost use Rattle.cal_query.specs.Layout.{StopsRows};
ghost use Rattle.cal_query.specs.Streaming.{FallsAt, HasFinished, HasStreamed, IsAbout};
ghost use Rattle.cal_query.specs.Streaming.{MayBeFed, finished};

use crate::RowsEnd;
use crate::pieces::{Fed, feed_all};
use cal_base::Source;
use cal_context::{Context, Snapshot, Taker};
use cal_read::{StreamEnd, StreamKind, StreamReader};
use cal_value::OutOfMemory;
use std::alloc::Global;

/// The first line that went wrong.
#[derive(Clone, Copy, Debug)]
pub(crate) struct BadLine {
    line: u64,
    kind: StreamKind,
}

/// A reader at work, which hands rows to a taker. Once it has met a fault it looks at nothing more.
#[derive(Drop)]
pub(crate) struct Streaming<T: Drop> {
    reader: StreamReader,
    context: Context,
    taker: T,
    fault: Option<BadLine>,
}

/// What a stream was read into.
#[derive(Drop)]
pub(crate) struct Finished<T: Drop> {
    pub context: Context,
    pub taker: T,
    pub globals: Snapshot,
}

impl<T: Taker + Drop> Fed for Streaming<T> {
    ghost use Rattle.cal_query.specs.Streaming.{HasStreamed, IsAbout, MayBeFed};

    ghost is_ready = { λ s. MayBeFed s.fault s };

    ghost has_read = { HasStreamed T.has_taken };

    ghost About = { T.About };

    ghost is_about = { IsAbout T.about };

    fn feed(&mut self, piece: &[u8]) -> Result<(), OutOfMemory> {
        if self.fault.is_some() {
            return Ok(());
        }
        match self.reader.feed(piece, &mut self.context, &mut self.taker) {
            Ok(()) => Ok(()),
            Err(StreamEnd::BadLine { line, kind }) => {
                self.fault = Some(BadLine { line, kind });
                Ok(())
            }
            Err(StreamEnd::OutOfMemory) => Err(OutOfMemory),
        }
    }
}

impl<T: Taker + Drop> Streaming<T> {
    fn new(alloc: Global, mut context: Context, taker: T) -> Result<Streaming<T>, OutOfMemory>
        requires { T.has_taken taker context [] }
        ensures ready { IfOk result (λ s. MayBeFed s.fault s) }
        ensures read { IfOk result (λ s. HasStreamed T.has_taken s []) }
        ensures about { IfOk result (λ s. IsAbout T.about s (T.about taker)) }
    {
        let Ok(reader) = StreamReader::new(alloc, &mut context) else {
            drop(taker);
            drop(context);
            return Err(OutOfMemory);
        };
        Ok(Streaming {
            reader,
            context,
            taker,
            fault: None,
        })
    }

    /// Reads all that an input has left, at most `limit` bytes, and its end: the globals.
    fn read<S: Source>(
        &mut self,
        alloc: Global,
        input: &mut S,
        limit: u64,
    ) -> Result<Snapshot, RowsEnd>
        requires ready { MayBeFed self.old.fault self.old }
        requires read { HasStreamed T.has_taken self.old [] }
        ensures read { IfOk result (λ globals. (bytes : List ℕ)
            × ReadsAll limit (change_of S.left S.faults input.old input.new) bytes
            × HasFinished T.has_taken (finished self.new globals) bytes) }
        ensures about { OnOk result ((what : T.About) → IsAbout T.about self.old what
            → T.about self.new.taker ≡ what) }
        ensures refused { IfErr result (λ end.
            StopsRows end limit (change_of S.left S.faults input.old input.new)) }
    {
        feed_all(alloc, input, limit, self)?;
        self.finish()
    }

    /// Reads a stream that is at hand as a whole, and its end: the globals.
    fn read_whole(&mut self, bytes: &[u8]) -> Result<Snapshot, RowsEnd>
        requires ready { MayBeFed self.old.fault self.old }
        requires read { HasStreamed T.has_taken self.old [] }
        ensures read { IfOk result (λ globals.
            HasFinished T.has_taken (finished self.new globals) bytes.now) }
        ensures about { OnOk result ((what : T.About) → IsAbout T.about self.old what
            → T.about self.new.taker ≡ what) }
        ensures refused { IfErr result (λ end. FallsAt end bytes.now) }
    {
        self.feed(bytes)?;
        self.finish()
    }

    /// Reads the end of the input: the globals.
    fn finish(&mut self) -> Result<Snapshot, RowsEnd>
        requires { MayBeFed self.old.fault self.old }
        ensures read { IfOk result (λ globals. (bytes : List ℕ)
            → HasStreamed T.has_taken self.old bytes
            → HasFinished T.has_taken (finished self.new globals) bytes) }
        ensures about { OnOk result ((what : T.About) → IsAbout T.about self.old what
            → T.about self.new.taker ≡ what) }
        ensures refused { IfErr result (λ end. (bytes : List ℕ)
            → HasStreamed T.has_taken self.old bytes → FallsAt end bytes) }
    {
        if let Some(bad) = self.fault {
            return Err(RowsEnd::BadLine {
                line: bad.line,
                kind: bad.kind,
            });
        }
        Ok(self.reader.finish(&mut self.context, &mut self.taker)?)
    }

    /// What was read, without the reader.
    fn into_finished(self, globals: Snapshot) -> Finished<T>
        ensures { result ≡ finished self globals }
    {
        let Streaming {
            reader,
            context,
            taker,
            fault: _,
        } = self;
        drop(reader);
        Finished {
            context,
            taker,
            globals,
        }
    }
}

/// Reads what an input has left as a stream, at most `limit` bytes, and hands its rows to a taker
/// that has taken none. Behind its first fault the input is read, and not looked at.
pub(crate) fn read_stream<S: Source, T: Taker + Drop>(
    alloc: Global,
    input: &mut S,
    limit: u64,
    context: Context,
    taker: T,
) -> Result<Finished<T>, RowsEnd>
    requires { T.has_taken taker context [] }
    ensures read { IfOk result (λ f. (bytes : List ℕ)
        × ReadsAll limit (change_of S.left S.faults input.old input.new) bytes
        × HasFinished T.has_taken f bytes) }
    ensures about { IfOk result (λ f. T.about f.taker ≡ T.about taker) }
    ensures refused { IfErr result (λ end.
        StopsRows end limit (change_of S.left S.faults input.old input.new)) }
{
    let mut streaming = Streaming::new(alloc, context, taker)?;
    match streaming.read(alloc, input, limit) {
        Ok(globals) => Ok(streaming.into_finished(globals)),
        Err(end) => {
            drop(streaming);
            Err(end)
        }
    }
}

/// Reads these bytes as a stream, and hands its rows to a taker that has taken none. Behind its
/// first fault nothing is looked at.
pub(crate) fn read_whole<T: Taker + Drop>(
    alloc: Global,
    bytes: &[u8],
    context: Context,
    taker: T,
) -> Result<Finished<T>, RowsEnd>
    requires { T.has_taken taker context [] }
    ensures read { IfOk result (λ f. HasFinished T.has_taken f bytes.now) }
    ensures about { IfOk result (λ f. T.about f.taker ≡ T.about taker) }
    ensures refused { IfErr result (λ end. FallsAt end bytes.now) }
{
    let mut streaming = Streaming::new(alloc, context, taker)?;
    match streaming.read_whole(bytes) {
        Ok(globals) => Ok(streaming.into_finished(globals)),
        Err(end) => {
            drop(streaming);
            Err(end)
        }
    }
}
