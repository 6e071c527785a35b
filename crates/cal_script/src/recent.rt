ghost use Rattle.std.specs.Prelude.{◌≡◌, true, Ok};
ghost use Rattle.std.specs.Prelude.{IfSome, IsTrue};
ghost use Rattle.std.specs.Option.{ok_or, option_map};
ghost use Rattle.cal_script.specs.Limits.{fits};
ghost use Rattle.cal_script.specs.Lines.{words_of};
ghost use Rattle.cal_script.specs.Names.{is_name};
ghost use Rattle.cal_script.specs.Parts.{attribute_named};
ghost use Rattle.cal_script.specs.Reader.{IsReading, state_of};
ghost use Rattle.cal_script.specs.Steps.{alone_said, alone_seen, naming_said, naming_seen, words_behind};
ghost use Rattle.cal_script.specs.declared.kind.ScriptKind.TheVariants as kinds;

use crate::ScriptKind;
use crate::hints::Seen;
use crate::reader::Reader;
use crate::words::{behind, one_word, word_and_rest};
use cal_value::Attribute;

/// An attribute that is declared, and its place.
#[derive(Clone, Copy, Debug)]
pub(crate) struct Declared<'a> {
    pub(crate) place: u32,
    pub(crate) attribute: &'a Attribute,
}

/// The attribute that a line names first, and what stands behind the name.
#[derive(Clone, Copy, Debug)]
pub(crate) struct Naming<'a, 'b> {
    pub(crate) named: Declared<'a>,
    pub(crate) rest: &'b str,
}

/// The names of attributes in the lines of threads. The one that a line had last is tried first.
impl Reader {
    /// The attribute at a place.
    #[inline(always)]
    #[tactic(auto, using(crate::proofs::Naming::attribute_at, crate::proofs::Naming::named_at))]
    fn declared_at(&self, place: usize) -> Option<Declared<'_>>
        requires kept { IsReading self.now }
        requires fits { fits (state_of self.now) ≡ true }
        ensures named { IfSome result (λ named. attribute_named self.now.attributes.items
            named.attribute.now.name ≡ Ok (named.place, named.attribute.now)) }
        ensures word { IfSome result (λ named. IsTrue (is_name named.attribute.now.name)) }
    {
        let attribute = self.attributes.at(place)?;
        Some(Declared {
            place: place as u32,
            attribute,
        })
    }

    /// The attribute of this name.
    pub(crate) fn named(&self, name: &str) -> Option<Declared<'_>>
        requires kept { IsReading self.now }
        requires fits { fits (state_of self.now) ≡ true }
        ensures named { ok_or (option_map (λ named. (named.place, named.attribute.now)) result)
            kinds.UnknownName ≡ attribute_named self.now.attributes.items name.now }
        ensures same { IfSome result (λ named. named.attribute.now.name ≡ name.now) }
    {
        let likely = self.near.likely(Seen::of(name).hash);
        let place = self.attributes.place_near(likely as usize, name)?;
        Some(Declared {
            place: place as u32,
            attribute: &self.attributes.items.as_slice()[place],
        })
    }

    /// The attribute that a line names before a value, likely the one at a place.
    #[inline(always)]
    #[tactic(auto, using(crate::proofs::Naming::naming_of, crate::proofs::FirstWords::name_and_rest_of))]
    pub(crate) fn naming<'a, 'b>(
        &'a self,
        likely: usize,
        rest: Option<&'b str>,
    ) -> Result<Naming<'a, 'b>, ScriptKind>
        requires kept { IsReading self.now }
        requires fits { fits (state_of self.now) ≡ true }
        ensures { naming_seen result ≡ naming_said self.now.attributes.items (words_behind rest.entry) }
    {
        let Some(text) = rest else {
            return Err(ScriptKind::WrongArity);
        };
        if let Some(named) = self.declared_at(likely) {
            if let Some((_, rest)) = behind(text, named.attribute.name.as_str()) {
                return Ok(Naming { named, rest });
            }
        }
        self.other_naming(text)
    }

    /// The same, for any attribute.
    fn other_naming<'a, 'b>(&'a self, text: &'b str) -> Result<Naming<'a, 'b>, ScriptKind>
        requires kept { IsReading self.now }
        requires fits { fits (state_of self.now) ≡ true }
        ensures { naming_seen result ≡ naming_said self.now.attributes.items (words_of text.now) }
    {
        let Some((name, rest)) = word_and_rest(Some(text)) else {
            return Err(ScriptKind::WrongArity);
        };
        match self.named(name) {
            Some(named) => Ok(Naming { named, rest }),
            None => Err(ScriptKind::UnknownName),
        }
    }

    /// The attribute that a line names and nothing behind it.
    #[inline(always)]
    #[tactic(auto, using(crate::proofs::Naming::alone_of, crate::proofs::FirstWords::one_name_of))]
    pub(crate) fn alone(&self, rest: Option<&str>) -> Result<Declared<'_>, ScriptKind>
        requires kept { IsReading self.now }
        requires fits { fits (state_of self.now) ≡ true }
        ensures { alone_seen result ≡ alone_said self.now.attributes.items (words_behind rest.entry) }
    {
        let Some(text) = rest else {
            return Err(ScriptKind::WrongArity);
        };
        if let Some(named) = self.declared_at(self.recent) {
            if text == named.attribute.name.as_str() {
                return Ok(named);
            }
        }
        self.other_alone(text)
    }

    /// The same, for any attribute.
    fn other_alone(&self, text: &str) -> Result<Declared<'_>, ScriptKind>
        requires kept { IsReading self.now }
        requires fits { fits (state_of self.now) ≡ true }
        ensures { alone_seen result ≡ alone_said self.now.attributes.items (words_of text.now) }
    {
        let Some(name) = one_word(Some(text)) else {
            return Err(ScriptKind::WrongArity);
        };
        match self.named(name) {
            Some(named) => Ok(named),
            None => Err(ScriptKind::UnknownName),
        }
    }
}
