ghost use Rattle.std.specs.Prelude.{◌≡◌, ◌≤◌, ◌++◌, ◌∷◌, [], length, true};
ghost use Rattle.std.specs.Prelude.{IfOk, OnOk};
ghost use Rattle.cal_script.specs.Limits.{fits};
ghost use Rattle.cal_script.specs.Reader.{IsNear, IsReading, state_of};
ghost use Rattle.cal_script.specs.Reading.{opening_after, opening_said};
ghost use Rattle.cal_script.specs.Steps.{Gives, words_behind};
ghost use Rattle.cal_script.specs.declared.script.Line.TheVariants as line;

use crate::end::LineEnd;
use crate::reader::Reader;
use crate::recent::Naming;
use crate::said::Said;
use crate::tally::made_words;
use crate::value::read_value;
use crate::{Line, ScriptKind};
use cal_value::OutOfMemory;
use std::alloc::Global;

/// A line that opens a value, before it is counted.
#[derive(Debug, Drop)]
pub(crate) struct Opening<'a> {
    /// The attribute's place.
    pub(crate) attr: u32,
    /// Whether it is a process line.
    pub(crate) process: bool,
    /// The words of the node that it makes.
    pub(crate) words: u64,
    pub(crate) value: Said<'a>,
}

/// The lines that open a value.
impl Reader {
    #[inline(always)]
    #[tactic(auto, using(crate::proofs::Naming::opening_goes))]
    fn opening_of<'a>(
        &self,
        alloc: Global,
        likely: usize,
        rest: Option<&'a str>,
    ) -> Result<Opening<'a>, LineEnd>
        requires kept { IsReading self.now }
        requires fits { fits (state_of self.now) ≡ true }
        ensures said { Gives (λ opening. opening) result
            (opening_said (state_of self.now) (words_behind rest.entry)) }
        ensures small { IfOk result (λ opening. opening.words ≤ 516) }
    {
        let Naming { named, rest } = match self.naming(likely, rest) {
            Ok(naming) => naming,
            Err(kind) => return Err(LineEnd::Bad(kind)),
        };
        let attribute = named.attribute;
        let value = read_value(alloc, attribute.kind, rest)?;
        Ok(Opening {
            attr: named.place,
            process: attribute.props.has_process_scope(),
            words: made_words(attribute, &value),
            value,
        })
    }

    /// Puts the value of a line to the others, and says its place.
    #[inline(always)]
    fn add_value(&mut self, alloc: Global, value: Said<'_>) -> Result<u32, OutOfMemory>
        requires kept { IsReading self.old }
        requires fits { fits (state_of self.old) ≡ true }
        ensures place { IfOk result (λ place. place ≡ length self.old.values) }
        ensures added { OnOk result (self.new
            ≡ record self.old { values = self.old.values ++ value.entry ∷ [] }) }
    {
        let place = self.values.len();
        self.values.add(alloc, value)?;
        Ok(place as u32)
    }

    #[inline(always)]
    pub(crate) fn read_begin(&mut self, alloc: Global, rest: Option<&str>) -> Result<(), LineEnd>
        requires kept { IsReading self.old }
        requires fits { fits (state_of self.old) ≡ true }
        ensures said { Gives (λ _. state_of self.new) result
            (opening_after line.Begin (state_of self.old) (words_behind rest.entry)) }
        ensures kept { OnOk result (IsReading self.new) }
        ensures earlier { OnOk result (self.new.earlier ≡ self.old.earlier) }
        ensures near { OnOk result (IsNear self.new.tally) }
    {
        if !self.in_thread {
            return Err(LineEnd::Bad(ScriptKind::Misplaced));
        }
        let Opening {
            attr,
            process,
            words,
            value,
        } = self.opening_of(alloc, self.recent, rest)?;
        self.recent = attr as usize;
        let value = self.add_value(alloc, value)?;
        self.add_line(Line::Begin { attr, value }, process, words)?;
        Ok(())
    }

    #[inline(always)]
    pub(crate) fn read_set(&mut self, alloc: Global, rest: Option<&str>) -> Result<(), LineEnd>
        requires kept { IsReading self.old }
        requires fits { fits (state_of self.old) ≡ true }
        ensures said { Gives (λ _. state_of self.new) result
            (opening_after line.Set (state_of self.old) (words_behind rest.entry)) }
        ensures kept { OnOk result (IsReading self.new) }
        ensures earlier { OnOk result (self.new.earlier ≡ self.old.earlier) }
        ensures near { OnOk result (IsNear self.new.tally) }
    {
        if !self.in_thread {
            return Err(LineEnd::Bad(ScriptKind::Misplaced));
        }
        let Opening {
            attr,
            process,
            words,
            value,
        } = self.opening_of(alloc, self.recent_set, rest)?;
        self.recent_set = attr as usize;
        let value = self.add_value(alloc, value)?;
        self.add_line(Line::Set { attr, value }, process, words)?;
        Ok(())
    }
}
