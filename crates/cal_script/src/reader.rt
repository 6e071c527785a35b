ghost use Rattle.std.specs.Prelude.{◌≡◌, ◌+◌, ◌<◌, ◌≤◌, ◌^◌, ◌++◌, ◌∷◌, length, option_to_list, true, IfOk, OnOk, IsTrue};
ghost use Rattle.cal_script.specs.Limits.{fits, thread_count};
ghost use Rattle.cal_script.specs.Lines.{words_of};
ghost use Rattle.cal_script.specs.Reader.{HasNames, IsNear, IsReading, IsSmall, counts_fit};
ghost use Rattle.cal_script.specs.Reader.{last_thread, state_of};
ghost use Rattle.cal_script.specs.Reading.{line_after, text_after, words_after};
ghost use Rattle.cal_script.specs.Rests.{bytes_in};
ghost use Rattle.cal_script.specs.State.{no_lines, script_of, with_line};
ghost use Rattle.cal_script.specs.Steps.{Gives, words_behind};

use crate::end::LineEnd;
use crate::hints::Hints;
use crate::register::Register;
use crate::tally::{Tally, tree_words};
use crate::words::{behind, first_word, is_skipped};
use crate::{Channel, Line, Rest, Script, ScriptKind, ValueList};
use cal_seeds::Seeds;
use cal_value::{Attribute, Entry, OutOfMemory, Seq};
use std::alloc::Global;

const MOST_ATTRIBUTES: usize = 1_024;

const MOST_CHANNELS: usize = 16;

const MOST_THREADS: u64 = 64;

const MOST_LINES: u64 = 1_048_576;

const MOST_PROCESS_LINES: u64 = 65_536;

const MOST_TREE_WORDS: u64 = 134_217_728;

/// What the lines of a script have said so far, for whoever reads a script line by line. After an
/// `Err` it is of no more use.
#[derive(Drop)]
pub struct Reader {
    pub(crate) attributes: Register<Attribute>,
    pub(crate) channels: Register<Channel>,
    pub(crate) valued: bool,
    pub(crate) globals: Register<Entry>,
    pub(crate) values: ValueList,
    pub(crate) earlier: Seq<Seq<Line>>,
    pub(crate) in_thread: bool,
    pub(crate) lines: Seq<Line>,
    pub(crate) tally: Tally,
    /// Where the attribute stands that a `begin` or `end` line named last, and a `set` line. The
    /// next such line likely names it too.
    pub(crate) recent: usize,
    pub(crate) recent_set: usize,
    /// Where attributes may stand, by their names.
    pub(crate) near: Hints,
}

impl Reader {
    /// The reader before the first line. It takes no memory. Names are hashed by numbers that
    /// everybody knows.
    pub fn new(alloc: Global) -> Self
        ensures start { state_of result ≡ no_lines }
        ensures kept { IsReading result }
        ensures fits { fits (state_of result) ≡ true }
    {
        Reader::seeded(alloc, Seeds::fixed())
    }

    /// The reader before the first line, where names are hashed by the seeds of a run. It takes no
    /// memory.
    pub fn seeded(alloc: Global, seeds: Seeds) -> Self
        ensures start { state_of result ≡ no_lines }
        ensures kept { IsReading result }
        ensures fits { fits (state_of result) ≡ true }
    {
        Reader {
            attributes: Register::new(alloc, seeds),
            channels: Register::new(alloc, seeds),
            valued: false,
            globals: Register::new(alloc, seeds),
            values: ValueList::new(alloc),
            earlier: Seq::new(alloc),
            in_thread: false,
            lines: Seq::new(alloc),
            tally: Tally {
                lines: 0,
                process_lines: 0,
                shared: 0,
                own: 0,
                most: 0,
            },
            recent: 0,
            recent_set: 0,
            near: Hints::new(alloc),
        }
    }

    /// Reads the next line.
    #[tactic(auto, unfolding(crate::specs::Reading::line_after), using(crate::proofs::Runs::texts))]
    pub fn read_line(&mut self, alloc: Global, line: &[u8]) -> Result<(), LineEnd>
        requires kept { IsReading self.old }
        requires fits { fits (state_of self.old) ≡ true }
        ensures said { Gives (λ _. state_of self.new) result
            (line_after (state_of self.old) line.now) }
        ensures kept { OnOk result (IsReading self.new) }
        ensures fits { OnOk result (fits (state_of self.new) ≡ true) }
    {
        let Ok(text) = std::str::from_utf8(line) else {
            return Err(LineEnd::Bad(ScriptKind::NotText));
        };
        self.read_known(alloc, text)
    }

    /// Reads the next line, of which it may be known that it is a text.
    #[inline(always)]
    pub fn read_rest(&mut self, alloc: Global, line: Rest<'_>) -> Result<(), LineEnd>
        requires kept { IsReading self.old }
        requires fits { fits (state_of self.old) ≡ true }
        ensures said { Gives (λ _. state_of self.new) result
            (line_after (state_of self.old) (bytes_in line.entry)) }
        ensures kept { OnOk result (IsReading self.new) }
        ensures fits { OnOk result (fits (state_of self.new) ≡ true) }
    {
        match line {
            Rest::Bytes(bytes) => self.read_line(alloc, bytes),
            Rest::Text(text) => self.read_known(alloc, text),
        }
    }

    /// Reads the next line, which is a text.
    #[tactic(auto, unfolding(crate::specs::Reading::line_after), using(crate::proofs::Runs::texts))]
    fn read_known(&mut self, alloc: Global, line: &str) -> Result<(), LineEnd>
        requires kept { IsReading self.old }
        requires fits { fits (state_of self.old) ≡ true }
        ensures said { Gives (λ _. state_of self.new) result
            (line_after (state_of self.old) line.now) }
        ensures kept { OnOk result (IsReading self.new) }
        ensures fits { OnOk result (fits (state_of self.new) ≡ true) }
    {
        if is_skipped(line.as_bytes()) {
            return Ok(());
        }
        self.read_text(alloc, line)
    }

    /// Reads a line that says something.
    fn read_text(&mut self, alloc: Global, line: &str) -> Result<(), LineEnd>
        requires kept { IsReading self.old }
        requires fits { fits (state_of self.old) ≡ true }
        ensures said { Gives (λ _. state_of self.new) result
            (text_after (state_of self.old) line.now) }
        ensures kept { OnOk result (IsReading self.new) }
        ensures fits { OnOk result (fits (state_of self.new) ≡ true) }
    {
        let few = self.read_words(alloc, line)?;
        if !self.still_fits(few) {
            return Err(LineEnd::Bad(ScriptKind::TooMany));
        }
        Ok(())
    }

    fn thread_count(&self) -> u64
        requires { length self.now.earlier < 65 }
        ensures { result ≡ thread_count (state_of self.now) }
    {
        let earlier = self.earlier.len() as u64;
        if self.in_thread { earlier + 1 } else { earlier }
    }

    /// Whether no limit is passed.
    fn fits(&self) -> bool
        requires threads { length self.now.earlier < 65 }
        requires near { IsNear self.now.tally }
        ensures { result ≡ fits (state_of self.now) }
    {
        let threads = self.thread_count();
        self.attributes.items.len() <= MOST_ATTRIBUTES
            && self.channels.items.len() <= MOST_CHANNELS
            && threads <= MOST_THREADS
            && self.tally.lines <= MOST_LINES
            && self.tally.process_lines <= MOST_PROCESS_LINES
            && tree_words(threads, self.tally.arena()) <= MOST_TREE_WORDS
    }

    /// The same, where it may be known that the last line has no node.
    #[inline(always)]
    fn still_fits(&self, few: bool) -> bool
        requires threads { length self.now.earlier < 65 }
        requires near { IsNear self.now.tally }
        requires few { few ≡ true → fits (state_of self.now) ≡ counts_fit self.now.tally }
        ensures { result ≡ fits (state_of self.now) }
    {
        if few {
            return self.tally.lines <= MOST_LINES && self.tally.process_lines <= MOST_PROCESS_LINES;
        }
        self.fits()
    }

    /// Reads a line by its words. The most frequent first words are tried first. It tells whether
    /// the line is known to have no node.
    fn read_words(&mut self, alloc: Global, line: &str) -> Result<bool, LineEnd>
        requires kept { IsReading self.old }
        requires fits { fits (state_of self.old) ≡ true }
        ensures said { Gives (λ _. state_of self.new) result
            (words_after (state_of self.old) (words_of line.now)) }
        ensures kept { OnOk result (IsReading self.new) }
        ensures threads { OnOk result (length self.new.earlier < 65) }
        ensures few { IfOk result (λ few. few ≡ true
            → fits (state_of self.new) ≡ counts_fit self.new.tally) }
        ensures near { OnOk result (IsNear self.new.tally) }
    {
        if let Some((_, rest)) = behind(line, "begin") {
            self.read_begin(alloc, Some(rest))?;
            return Ok(false);
        }
        if let Some((_, rest)) = behind(line, "end") {
            self.read_end(Some(rest))?;
            return Ok(true);
        }
        if line == "snapshot" {
            self.read_snapshot(None)?;
            return Ok(true);
        }
        if let Some((_, rest)) = behind(line, "tick") {
            self.read_tick(alloc, Some(rest))?;
            return Ok(true);
        }
        if let Some((_, rest)) = behind(line, "set") {
            self.read_set(alloc, Some(rest))?;
            return Ok(false);
        }
        self.read_by_word(alloc, line)?;
        Ok(false)
    }

    /// Reads a line by its first word, whichever that is.
    fn read_by_word(&mut self, alloc: Global, line: &str) -> Result<(), LineEnd>
        requires kept { IsReading self.old }
        requires fits { fits (state_of self.old) ≡ true }
        ensures said { Gives (λ _. state_of self.new) result
            (words_after (state_of self.old) (words_of line.now)) }
        ensures kept { OnOk result (IsReading self.new) }
        ensures threads { OnOk result (length self.new.earlier < 65) }
        ensures near { OnOk result (IsNear self.new.tally) }
    {
        let (word, rest) = first_word(line);
        match word {
            "attribute" => self.read_attribute(alloc, rest),
            "global" => self.read_global(alloc, rest),
            "channel" => self.read_channel(alloc, rest),
            "key" => self.read_key(alloc, rest),
            "value" => self.read_value(alloc, rest),
            "thread" => self.read_thread(alloc, rest),
            "begin" => self.read_begin(alloc, rest),
            "set" => self.read_set(alloc, rest),
            "end" => self.read_end(rest),
            "snapshot" => self.read_snapshot(rest),
            "flush" => self.read_flush(rest),
            "tick" => self.read_tick(alloc, rest),
            _ => Err(LineEnd::Bad(ScriptKind::UnknownWord)),
        }
    }

    /// Adds a line to the last thread. Its node has so many words.
    #[inline(always)]
    pub(crate) fn add_line(
        &mut self,
        line: Line,
        process: bool,
        words: u64,
    ) -> Result<(), OutOfMemory>
        requires thread { IsTrue self.old.in_thread }
        requires names { HasNames self.old }
        requires values { length self.old.values ≤ self.old.tally.lines + 1 }
        requires small { IsSmall self.old.tally }
        requires words { words ≤ 516 }
        ensures added { OnOk result
            (state_of self.new ≡ with_line line process words (state_of self.old)) }
        ensures kept { OnOk result (IsReading self.new) }
        ensures earlier { OnOk result (self.new.earlier ≡ self.old.earlier) }
        ensures near { OnOk result (IsNear self.new.tally) }
    {
        self.lines.push(line)?;
        self.tally = self.tally.counted(process, words);
        Ok(())
    }

    /// The script that all lines say.
    pub fn into_script(self) -> Result<Script, OutOfMemory>
        ensures { IfOk result (λ script. script ≡ script_of (state_of self)) }
    {
        let Reader {
            attributes,
            channels,
            valued: _,
            globals,
            values,
            earlier,
            in_thread,
            lines,
            tally: _,
            recent: _,
            recent_set: _,
            near: _,
        } = self;
        Ok(Script {
            attributes: attributes.into_items(),
            channels: channels.into_items(),
            values,
            threads: all_threads(earlier, in_thread, lines)?,
            globals: globals.into_items(),
        })
    }
}

/// The threads with the last, where one has begun.
fn all_threads(
    mut earlier: Seq<Seq<Line>>,
    in_thread: bool,
    lines: Seq<Line>,
) -> Result<Seq<Seq<Line>>, OutOfMemory>
    ensures { IfOk result (λ threads. threads
        ≡ earlier ++ option_to_list (last_thread in_thread lines)) }
{
    if in_thread {
        earlier.push(lines)?;
    }
    Ok(earlier)
}
