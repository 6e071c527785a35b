//! What the limits count of the declarations so far.
ghost use Rattle.std.specs.Prelude.{◌≡◌, ◌≤◌, ◌+◌, ◌&&◌, max, nat_le};
ghost use Rattle.cal_words.specs.Shapes.{word_count};
ghost use Rattle.cal_declarations.specs.Counts.{IsFew, arena, counted, next_thread};
ghost use Rattle.cal_declarations.specs.Layout.{names_layout};

use cal_words::Shape;

const MOST_LINES: u64 = 1_048_576;

const MOST_WORDS: u64 = 134_217_728;

/// The declarations of all threads, and the words of their records: of the last thread, and the
/// most of an earlier one.
#[derive(Clone, Copy, Debug)]
pub(crate) struct Counts {
    pub(crate) lines: u64,
    pub(crate) own: u64,
    pub(crate) most: u64,
}

impl Counts {
    /// Where the next thread begins.
    pub(crate) fn next_thread(self) -> Counts
        ensures { result ≡ next_thread self }
    {
        Counts {
            own: 0,
            most: self.most.max(self.own),
            ..self
        }
    }

    /// With a declaration more, whose record has so many words.
    pub(crate) fn with_line(self, words: u64) -> Counts
        requires few { IsFew self }
        requires words { words ≤ 29 }
        ensures { result ≡ counted words self }
    {
        Counts {
            lines: self.lines + 1,
            own: self.own + words,
            ..self
        }
    }

    /// The room that a thread needs.
    fn arena(self) -> u64
        ensures { result ≡ arena self }
    {
        self.most.max(self.own)
    }

    /// The shape of the table of so many threads.
    pub(crate) fn shape(self, threads: u64) -> Shape
        requires threads { threads ≤ 64 }
        requires few { IsFew self }
        ensures { result ≡ names_layout threads (arena self) }
    {
        let arena = self.arena();
        let slots = (threads + 1) * (arena / 5) + 1;
        Shape {
            slots,
            homes: slots,
            arena,
            arenas: threads + 1,
        }
    }

    /// Whether no limit is passed, with so many threads.
    pub(crate) fn fit(self, threads: u64) -> bool
        requires threads { threads ≤ 64 }
        requires few { IsFew self }
        ensures { result ≡ (nat_le self.lines 1048576
            && nat_le (word_count (names_layout threads (arena self))) 134217728) }
    {
        let shape = self.shape(threads);
        let words = 1 + shape.slots + shape.arenas * shape.arena;
        self.lines <= MOST_LINES && words <= MOST_WORDS
    }
}
