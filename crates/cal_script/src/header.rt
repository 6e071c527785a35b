ghost use Rattle.std.specs.Prelude.{◌≡◌, false, true, IfOk, OnOk};
ghost use Rattle.cal_script.specs.Limits.{fits};
ghost use Rattle.cal_script.specs.Parts.{is_among};
ghost use Rattle.cal_script.specs.Reader.{IsReading, SameLines, state_of};
ghost use Rattle.cal_script.specs.Reading.{attribute_after, channel_after, global_after, global_of};
ghost use Rattle.cal_script.specs.Reading.{global_names, key_after, value_after};
ghost use Rattle.cal_script.specs.Steps.{Gives, words_behind};

use crate::ScriptKind;
use crate::attributes::read_attribute;
use crate::channels::read_channel;
use crate::end::LineEnd;
use crate::hints::Seen;
use crate::lists::{add_keys, add_values};
use crate::reader::Reader;
use crate::recent::Declared;
use crate::value::read_value;
use crate::words::{three_words, two_words, word_and_rest};
use cal_value::{Entry, TryCopy};
use std::alloc::Global;

/// The lines of a header.
impl Reader {
    #[tactic(auto, using(crate::proofs::FirstWords::named_more))]
    pub(crate) fn read_attribute(
        &mut self,
        alloc: Global,
        rest: Option<&str>,
    ) -> Result<(), LineEnd>
        requires { IsReading self.old }
        ensures said { Gives (λ _. state_of self.new) result
            (attribute_after (state_of self.old) (words_behind rest.entry)) }
        ensures kept { OnOk result (IsReading self.new) }
        ensures lines { OnOk result (SameLines self.old self.new) }
    {
        if self.in_thread {
            return Err(LineEnd::Bad(ScriptKind::Misplaced));
        }
        let Some((name, kind, props)) = three_words(rest) else {
            return Err(LineEnd::Bad(ScriptKind::WrongArity));
        };
        let attribute = read_attribute(alloc, &self.attributes, name, kind, props)?;
        self.near
            .keep(alloc, Seen::of(name).hash, self.attributes.items.len())?;
        self.attributes.add(alloc, attribute)?;
        Ok(())
    }

    pub(crate) fn read_channel(&mut self, alloc: Global, rest: Option<&str>) -> Result<(), LineEnd>
        requires { IsReading self.old }
        ensures said { Gives (λ _. state_of self.new) result
            (channel_after (state_of self.old) (words_behind rest.entry)) }
        ensures kept { OnOk result (IsReading self.new) }
        ensures lines { OnOk result (SameLines self.old self.new) }
    {
        if self.in_thread {
            return Err(LineEnd::Bad(ScriptKind::Misplaced));
        }
        let Some((name, services)) = two_words(rest) else {
            return Err(LineEnd::Bad(ScriptKind::WrongArity));
        };
        let channel = read_channel(alloc, &self.channels, name, services)?;
        self.channels.add(alloc, channel)?;
        self.valued = false;
        Ok(())
    }

    fn global_of(&self, alloc: Global, name: &str, value: &str) -> Result<Entry, LineEnd>
        requires kept { IsReading self.now }
        requires fits { fits (state_of self.now) ≡ true }
        ensures said { Gives (λ entry. entry) result
            (global_of (state_of self.now) (name.now, value.now)) }
        ensures fresh { IfOk result (λ entry. is_among (global_names self.now.globals.items)
            entry.attr.name ≡ false) }
    {
        if self.globals.has(name) {
            return Err(LineEnd::Bad(ScriptKind::DuplicateName));
        }
        let Some(Declared { attribute, .. }) = self.named(name) else {
            return Err(LineEnd::Bad(ScriptKind::UnknownName));
        };
        if !attribute.props.is_global() {
            return Err(LineEnd::Bad(ScriptKind::NotGlobal));
        }
        let value = read_value(alloc, attribute.kind, value)?.into_value(alloc)?;
        Ok(Entry {
            attr: attribute.copy(alloc)?,
            value,
        })
    }

    pub(crate) fn read_global(&mut self, alloc: Global, rest: Option<&str>) -> Result<(), LineEnd>
        requires kept { IsReading self.old }
        requires fits { fits (state_of self.old) ≡ true }
        ensures said { Gives (λ _. state_of self.new) result
            (global_after (state_of self.old) (words_behind rest.entry)) }
        ensures kept { OnOk result (IsReading self.new) }
        ensures lines { OnOk result (SameLines self.old self.new) }
    {
        if self.in_thread {
            return Err(LineEnd::Bad(ScriptKind::Misplaced));
        }
        let Some((name, value)) = word_and_rest(rest) else {
            return Err(LineEnd::Bad(ScriptKind::WrongArity));
        };
        let entry = self.global_of(alloc, name, value)?;
        self.globals.add(alloc, entry)?;
        Ok(())
    }

    #[tactic(auto, using(crate::proofs::LastChannel::last_pushed, crate::proofs::LastChannel::earlier_pushed))]
    pub(crate) fn read_key(&mut self, alloc: Global, rest: Option<&str>) -> Result<(), LineEnd>
        requires { IsReading self.old }
        ensures said { Gives (λ _. state_of self.new) result
            (key_after (state_of self.old) (words_behind rest.entry)) }
        ensures kept { OnOk result (IsReading self.new) }
        ensures lines { OnOk result (SameLines self.old self.new) }
    {
        if self.in_thread {
            return Err(LineEnd::Bad(ScriptKind::Misplaced));
        }
        let Some(mut channel) = self.channels.items.pop() else {
            return Err(LineEnd::Bad(ScriptKind::Misplaced));
        };
        add_keys(alloc, &self.attributes, &mut channel, rest)?;
        self.channels.items.push(channel)?;
        Ok(())
    }

    #[tactic(auto, using(crate::proofs::LastChannel::last_pushed, crate::proofs::LastChannel::earlier_pushed))]
    pub(crate) fn read_value(&mut self, alloc: Global, rest: Option<&str>) -> Result<(), LineEnd>
        requires { IsReading self.old }
        ensures said { Gives (λ _. state_of self.new) result
            (value_after (state_of self.old) (words_behind rest.entry)) }
        ensures kept { OnOk result (IsReading self.new) }
        ensures lines { OnOk result (SameLines self.old self.new) }
    {
        if self.in_thread {
            return Err(LineEnd::Bad(ScriptKind::Misplaced));
        }
        let Some(mut channel) = self.channels.items.pop() else {
            return Err(LineEnd::Bad(ScriptKind::Misplaced));
        };
        if self.valued {
            return Err(LineEnd::Bad(ScriptKind::Misplaced));
        }
        add_values(alloc, &self.attributes, &mut channel, rest)?;
        self.channels.items.push(channel)?;
        self.valued = true;
        Ok(())
    }
}
