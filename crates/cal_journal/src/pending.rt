ghost use Rattle.std.specs.Prelude.{◌≡◌, ◌+◌, ◌<◌, ◌^◌, ◌++◌, option_to_list, IfOk, OnOk, Some};
ghost use Rattle.std.specs.Prelude.{None};
ghost use Rattle.std.specs.Option.{option_map};
ghost use Rattle.cal_script.specs.Lines.{words_of};
ghost use Rattle.cal_script.specs.Steps.{words_behind};
ghost use Rattle.cal_journal.specs.Pending.{Finds, Gives, last_thread, state_of};
ghost use Rattle.cal_journal.specs.Reading.{begin_at, begun, end_after, five_words, journal_after};
ghost use Rattle.cal_journal.specs.Reading.{journal_of, line_after, note_said, with_mark};
ghost use Rattle.cal_journal.specs.Reading.{line_said, op_after, op_said, row_after, start_after};
ghost use Rattle.cal_journal.specs.Reading.{start_said, words_after};
ghost use Rattle.cal_journal.specs.Words.{clock_said};

use crate::ends::LineFault;
use crate::numbers::{read_long, read_reading, read_reply, read_short};
use cal_script::{
    Journal, JournalMarks, JournalText, LineNote, Placed, RowMark, ThreadNote, first_word,
};
use cal_value::{OutOfMemory, Seq};
use std::alloc::Global;
use std::mem;

/// What the lines of a journal have said so far. After an `Err` it is of no more use.
#[derive(Drop)]
pub(crate) struct Pending {
    pub(crate) line: u64,
    pub(crate) clock: Option<bool>,
    pub(crate) ops: Seq<Placed>,
    pub(crate) op_lines: Seq<u64>,
    pub(crate) earlier: Seq<ThreadNote>,
    pub(crate) in_thread: bool,
    pub(crate) start: Option<u64>,
    pub(crate) notes: Seq<LineNote>,
    pub(crate) rows: Seq<RowMark>,
    pub(crate) end: Option<u64>,
}

/// Whether the clock is real.
#[tactic(auto, using(crate::proofs::Decimals::clock_more))]
fn read_clock(rest: Option<&str>) -> Option<bool>
    ensures { result ≡ clock_said (words_behind rest.entry) }
{
    let (clock, more) = first_word(rest?);
    if more.is_some() {
        return None;
    }
    match clock {
        "script" => Some(false),
        "real" => Some(true),
        _ => None,
    }
}

#[tactic(auto, using(crate::proofs::Decimals::op_more))]
fn read_op(alloc: Global, rest: Option<&str>) -> Result<Placed, LineFault>
    ensures { Finds (λ op. op) result (op_said (words_behind rest.entry)) }
{
    let Some(text) = rest else {
        return Err(LineFault::Form);
    };
    let (thread, rest) = first_word(text);
    let Some(text) = rest else {
        return Err(LineFault::Form);
    };
    let (line, more) = first_word(text);
    if more.is_some() {
        return Err(LineFault::Form);
    }
    let thread = read_short(alloc, thread)?;
    let line = read_short(alloc, line)?;
    Ok(Placed { thread, line })
}

#[tactic(auto, using(crate::proofs::Decimals::start_more))]
fn read_start(alloc: Global, rest: Option<&str>) -> Result<(u64, Option<u64>), LineFault>
    ensures { Finds (λ start. start) result (start_said (words_behind rest.entry)) }
{
    let Some(text) = rest else {
        return Err(LineFault::Form);
    };
    let (thread, rest) = first_word(text);
    let Some(text) = rest else {
        return Err(LineFault::Form);
    };
    let (reading, more) = first_word(text);
    if more.is_some() {
        return Err(LineFault::Form);
    }
    let thread = read_long(alloc, thread)?;
    let reading = read_reading(alloc, reading)?;
    Ok((thread, reading))
}

/// The five words of a `line` line.
#[tactic(auto, using(crate::proofs::Decimals::five_more))]
fn five_words(rest: Option<&str>) -> Option<(&str, &str, &str, &str, &str)>
    ensures { option_map (λ five. (five.0.now, five.1.now, five.2.now, five.3.now, five.4.now)) result
        ≡ five_words (words_behind rest.entry) }
{
    let (thread, rest) = first_word(rest?);
    let (number, rest) = first_word(rest?);
    let (reply, rest) = first_word(rest?);
    let (seen, rest) = first_word(rest?);
    let (reading, more) = first_word(rest?);
    if more.is_some() {
        return None;
    }
    Some((thread, number, reply, seen, reading))
}

fn read_note(alloc: Global, reply: &str, seen: &str, reading: &str) -> Result<LineNote, LineFault>
    ensures { Finds (λ note. note) result (note_said reply.now seen.now reading.now) }
{
    let reply = read_reply(alloc, reply)?;
    let seen = read_long(alloc, seen)?;
    let reading = read_reading(alloc, reading)?;
    Ok(LineNote {
        reply,
        seen,
        reading,
    })
}

fn read_row(alloc: Global, rest: Option<&str>) -> Result<(u64, u64, LineNote), LineFault>
    ensures { Finds (λ row. row) result (line_said (words_behind rest.entry)) }
{
    let Some((thread, number, reply, seen, reading)) = five_words(rest) else {
        return Err(LineFault::Form);
    };
    let thread = read_long(alloc, thread)?;
    let number = read_long(alloc, number)?;
    let note = read_note(alloc, reply, seen, reading)?;
    Ok((thread, number, note))
}

impl Pending {
    /// Behind so many lines, before the journal's first. It takes no memory.
    pub(crate) fn begin_at(alloc: Global, line: u64) -> Self
        ensures { state_of result ≡ begin_at line }
    {
        Pending {
            line,
            clock: None,
            ops: Seq::new(alloc),
            op_lines: Seq::new(alloc),
            earlier: Seq::new(alloc),
            in_thread: false,
            start: None,
            notes: Seq::new(alloc),
            rows: Seq::new(alloc),
            end: None,
        }
    }

    fn take_clock(&mut self, rest: Option<&str>) -> Result<(), LineFault>
        ensures line { self.new.line ≡ self.old.line }
        ensures said { Finds (λ _. state_of self.new) result
            (journal_after (state_of self.old) (words_behind rest.entry)) }
    {
        if self.clock.is_some() {
            return Err(LineFault::Form);
        }
        let Some(real) = read_clock(rest) else {
            return Err(LineFault::Form);
        };
        self.clock = Some(real);
        Ok(())
    }

    fn take_op(&mut self, alloc: Global, rest: Option<&str>) -> Result<(), LineFault>
        ensures line { self.new.line ≡ self.old.line }
        ensures said { Finds (λ _. state_of self.new) result
            (op_after (state_of self.old) (words_behind rest.entry)) }
    {
        if self.in_thread {
            return Err(LineFault::Form);
        }
        let op = read_op(alloc, rest)?;
        self.ops.push(op)?;
        let line = self.line;
        self.op_lines.push(line)?;
        Ok(())
    }

    fn add_mark(&mut self, thread: u64, number: u64) -> Result<(), OutOfMemory>
        ensures line { self.new.line ≡ self.old.line }
        ensures said { OnOk result (state_of self.new ≡ with_mark thread number (state_of self.old)) }
    {
        let line = self.line;
        self.rows.push(RowMark {
            line,
            thread,
            number,
        })?;
        Ok(())
    }

    /// Puts the last thread to the earlier ones, where one has begun, and begins another.
    fn begin_thread(&mut self, alloc: Global, start: Option<u64>) -> Result<(), OutOfMemory>
        ensures line { self.new.line ≡ self.old.line }
        ensures said { OnOk result (state_of self.new ≡ begun start (state_of self.old)) }
    {
        if self.in_thread {
            let lines = mem::replace(&mut self.notes, Seq::new(alloc));
            let start = self.start;
            self.earlier.push(ThreadNote { start, lines })?;
        } else {
            self.notes = Seq::new(alloc);
        }
        self.in_thread = true;
        self.start = start;
        Ok(())
    }

    fn take_start(&mut self, alloc: Global, rest: Option<&str>) -> Result<(), LineFault>
        ensures line { self.new.line ≡ self.old.line }
        ensures said { Finds (λ _. state_of self.new) result
            (start_after (state_of self.old) (words_behind rest.entry)) }
    {
        let (thread, start) = read_start(alloc, rest)?;
        self.begin_thread(alloc, start)?;
        self.add_mark(thread, 0)?;
        Ok(())
    }

    fn take_row(&mut self, alloc: Global, rest: Option<&str>) -> Result<(), LineFault>
        ensures line { self.new.line ≡ self.old.line }
        ensures said { Finds (λ _. state_of self.new) result
            (row_after (state_of self.old) (words_behind rest.entry)) }
    {
        if !self.in_thread {
            return Err(LineFault::Form);
        }
        let (thread, number, note) = read_row(alloc, rest)?;
        self.notes.push(note)?;
        self.add_mark(thread, number)?;
        Ok(())
    }

    #[tactic(auto, using(crate::proofs::Decimals::end_more))]
    fn take_end(&mut self, rest: Option<&str>) -> Result<(), LineFault>
        ensures line { self.new.line ≡ self.old.line }
        ensures said { Finds (λ _. state_of self.new) result
            (end_after (state_of self.old) (words_behind rest.entry)) }
    {
        if rest.is_some() {
            return Err(LineFault::Form);
        }
        self.end = Some(self.line);
        Ok(())
    }

    fn take_words(&mut self, alloc: Global, line: &str) -> Result<(), LineFault>
        ensures line { self.new.line ≡ self.old.line }
        ensures said { Finds (λ _. state_of self.new) result
            (words_after (state_of self.old) (words_of line.now)) }
    {
        let (word, rest) = first_word(line);
        if word == "journal" {
            return self.take_clock(rest);
        }
        if self.clock.is_none() {
            return Err(LineFault::Form);
        }
        match word {
            "op" => self.take_op(alloc, rest),
            "start" => self.take_start(alloc, rest),
            "line" => self.take_row(alloc, rest),
            "end" => self.take_end(rest),
            _ => Err(LineFault::Form),
        }
    }

    /// Reads the next line.
    #[tactic(auto, unfolding(crate::specs::Reading::line_after), using(cal_script::proofs::Runs::texts))]
    pub(crate) fn take_line(&mut self, alloc: Global, line: &[u8]) -> Result<(), LineFault>
        requires { self.old.line + 1 < 2 ^ 64 }
        ensures counted { self.new.line ≡ self.old.line + 1 }
        ensures said { Gives (λ _. state_of self.new) result
            (line_after (state_of self.old) line.now) }
    {
        self.line += 1;
        if line.is_empty() {
            return Ok(());
        }
        if self.end.is_some() {
            return Err(LineFault::After);
        }
        let Ok(text) = std::str::from_utf8(line) else {
            return Err(LineFault::Form);
        };
        self.take_words(alloc, text)
    }

    /// The journal that all lines say, if they end.
    pub(crate) fn into_journal(self) -> Result<Option<JournalText>, OutOfMemory>
        ensures { IfOk result (λ text. text
            ≡ option_map (journal_of (state_of self)) self.end) }
    {
        let Pending {
            line: _,
            clock,
            ops,
            op_lines,
            earlier,
            in_thread,
            start,
            notes,
            rows,
            end,
        } = self;
        let Some(end) = end else {
            return Ok(None);
        };
        let threads = all_threads(earlier, in_thread, start, notes)?;
        Ok(Some(JournalText {
            journal: Journal {
                real: clock.unwrap_or(false),
                ops,
                threads,
            },
            marks: JournalMarks {
                ops: op_lines,
                rows,
                end,
            },
        }))
    }
}

/// The threads with the last, where one has begun.
fn all_threads(
    mut earlier: Seq<ThreadNote>,
    in_thread: bool,
    start: Option<u64>,
    lines: Seq<LineNote>,
) -> Result<Seq<ThreadNote>, OutOfMemory>
    ensures { IfOk result (λ threads. threads
        ≡ earlier ++ option_to_list (last_thread in_thread start lines)) }
{
    if in_thread {
        earlier.push(ThreadNote { start, lines })?;
    }
    Ok(earlier)
}
