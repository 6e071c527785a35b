ghost use Rattle.std.specs.Prelude.{◌≡◌, ◌<◌, length, true, OnOk};
ghost use Rattle.std.specs.Option.{ok_or, option_map};
ghost use Rattle.cal_script.specs.Limits.{fits};
ghost use Rattle.cal_script.specs.Parts.{channel_named};
ghost use Rattle.cal_script.specs.Reader.{IsNear, IsReading, counts_fit, ended, state_of};
ghost use Rattle.cal_script.specs.Reading.{end_after, flush_after, snapshot_after};
ghost use Rattle.cal_script.specs.Reading.{thread_after, tick_after};
ghost use Rattle.cal_script.specs.Steps.{Gives, words_behind};
ghost use Rattle.cal_script.specs.declared.kind.ScriptKind.TheVariants as kinds;

use crate::end::LineEnd;
use crate::reader::Reader;
use crate::recent::Declared;
use crate::value::read_number;
use crate::words::one_word;
use crate::{Channel, Line, ScriptKind, Ticks};
use cal_value::{OutOfMemory, Seq};
use std::alloc::Global;
use std::mem;

/// The lines of threads.
impl Reader {
    /// Puts the last thread to the earlier ones, where one has begun.
    fn end_thread(&mut self, alloc: Global) -> Result<(), OutOfMemory>
        ensures { OnOk result (self.new ≡ ended self.old) }
    {
        if self.in_thread {
            let lines = mem::replace(&mut self.lines, Seq::new(alloc));
            self.earlier.push(lines)?;
        } else {
            self.lines = Seq::new(alloc);
        }
        Ok(())
    }

    #[tactic(auto, using(crate::proofs::Cuts::no_word_more))]
    pub(crate) fn read_thread(&mut self, alloc: Global, rest: Option<&str>) -> Result<(), LineEnd>
        requires kept { IsReading self.old }
        requires fits { fits (state_of self.old) ≡ true }
        ensures said { Gives (λ _. state_of self.new) result
            (thread_after (state_of self.old) (words_behind rest.entry)) }
        ensures kept { OnOk result (IsReading self.new) }
        ensures threads { OnOk result (length self.new.earlier < 65) }
        ensures near { OnOk result (IsNear self.new.tally) }
    {
        if rest.is_some() {
            return Err(LineEnd::Bad(ScriptKind::WrongArity));
        }
        self.end_thread(alloc)?;
        self.in_thread = true;
        self.tally = self.tally.next_thread();
        Ok(())
    }

    #[inline(always)]
    #[tactic(auto, using(crate::proofs::Naming::end_by_name, crate::proofs::Limiting::fits_again))]
    pub(crate) fn read_end(&mut self, rest: Option<&str>) -> Result<(), LineEnd>
        requires kept { IsReading self.old }
        requires fits { fits (state_of self.old) ≡ true }
        ensures said { Gives (λ _. state_of self.new) result
            (end_after (state_of self.old) (words_behind rest.entry)) }
        ensures kept { OnOk result (IsReading self.new) }
        ensures earlier { OnOk result (self.new.earlier ≡ self.old.earlier) }
        ensures few { OnOk result (fits (state_of self.new) ≡ counts_fit self.new.tally) }
        ensures near { OnOk result (IsNear self.new.tally) }
    {
        if !self.in_thread {
            return Err(LineEnd::Bad(ScriptKind::Misplaced));
        }
        let Declared { place, attribute } = match self.alone(rest) {
            Ok(named) => named,
            Err(kind) => return Err(LineEnd::Bad(kind)),
        };
        let attr = place;
        let process = attribute.props.has_process_scope();
        self.recent = attr as usize;
        self.add_line(Line::End { attr }, process, 0)?;
        Ok(())
    }

    #[tactic(auto, using(crate::proofs::Cuts::no_word_more, crate::proofs::Limiting::fits_again))]
    pub(crate) fn read_snapshot(&mut self, rest: Option<&str>) -> Result<(), LineEnd>
        requires kept { IsReading self.old }
        requires fits { fits (state_of self.old) ≡ true }
        ensures said { Gives (λ _. state_of self.new) result
            (snapshot_after (state_of self.old) (words_behind rest.entry)) }
        ensures kept { OnOk result (IsReading self.new) }
        ensures earlier { OnOk result (self.new.earlier ≡ self.old.earlier) }
        ensures few { OnOk result (fits (state_of self.new) ≡ counts_fit self.new.tally) }
        ensures near { OnOk result (IsNear self.new.tally) }
    {
        if !self.in_thread {
            return Err(LineEnd::Bad(ScriptKind::Misplaced));
        }
        if rest.is_some() {
            return Err(LineEnd::Bad(ScriptKind::WrongArity));
        }
        self.add_line(Line::Snapshot, false, 0)?;
        Ok(())
    }

    /// The place of the channel of this name, and whether it aggregates.
    fn channel_named(&self, name: &str) -> Option<(u32, &Channel)>
        requires kept { IsReading self.now }
        requires fits { fits (state_of self.now) ≡ true }
        ensures { ok_or (option_map (λ named. (named.0, named.1.now)) result) kinds.UnknownName
            ≡ channel_named self.now.channels.items name.now }
    {
        let place = self.channels.place(name)?;
        Some((place as u32, &self.channels.items.as_slice()[place]))
    }

    pub(crate) fn read_flush(&mut self, rest: Option<&str>) -> Result<(), LineEnd>
        requires kept { IsReading self.old }
        requires fits { fits (state_of self.old) ≡ true }
        ensures said { Gives (λ _. state_of self.new) result
            (flush_after (state_of self.old) (words_behind rest.entry)) }
        ensures kept { OnOk result (IsReading self.new) }
        ensures earlier { OnOk result (self.new.earlier ≡ self.old.earlier) }
        ensures near { OnOk result (IsNear self.new.tally) }
    {
        if !self.in_thread {
            return Err(LineEnd::Bad(ScriptKind::Misplaced));
        }
        let Some(name) = one_word(rest) else {
            return Err(LineEnd::Bad(ScriptKind::WrongArity));
        };
        let Some((channel, found)) = self.channel_named(name) else {
            return Err(LineEnd::Bad(ScriptKind::UnknownName));
        };
        if !found.aggregate {
            return Err(LineEnd::Bad(ScriptKind::NotAggregate));
        }
        self.add_line(Line::Flush { channel }, false, 0)?;
        Ok(())
    }

    #[tactic(auto, using(crate::proofs::Limiting::fits_again))]
    pub(crate) fn read_tick(&mut self, alloc: Global, rest: Option<&str>) -> Result<(), LineEnd>
        requires kept { IsReading self.old }
        requires fits { fits (state_of self.old) ≡ true }
        ensures said { Gives (λ _. state_of self.new) result
            (tick_after (state_of self.old) (words_behind rest.entry)) }
        ensures kept { OnOk result (IsReading self.new) }
        ensures earlier { OnOk result (self.new.earlier ≡ self.old.earlier) }
        ensures few { OnOk result (fits (state_of self.new) ≡ counts_fit self.new.tally) }
        ensures near { OnOk result (IsNear self.new.tally) }
    {
        if !self.in_thread {
            return Err(LineEnd::Bad(ScriptKind::Misplaced));
        }
        let Some(word) = one_word(rest) else {
            return Err(LineEnd::Bad(ScriptKind::WrongArity));
        };
        let n = Ticks::new(read_number(alloc, word)?);
        self.add_line(Line::Tick { n }, false, 0)?;
        Ok(())
    }
}
