ghost use Rattle.std.specs.Prelude.{◌≡◌, ◌==◌, ◌↔◌, [], ◌++◌, length, take, IfOk, IsTrue, IsUtf8};
ghost use Rattle.std.specs.Prelude.{OnOk, OnErr, string_bytes, encode_utf8, refl};
ghost use Rattle.std.specs.Hash as fed;
ghost use Rattle.std.specs.Cmp.{partial_order_from_total};
ghost use Rattle.std.specs.Ordering.{as_partial_cmp, eq_by_cmp};
ghost use Rattle.cal_value.specs.Texts.{text_cmp};
ghost use Rattle.cal_value.specs.ExactOrder.{text_exact, exact_per, exact_equiv, exact_alike};

use crate::{OutOfMemory, TryCopy};
use std::alloc::Global;
use std::cmp::Ordering;
use std::hash::{Hash, Hasher};
use std::marker::Model;

/// A text in UTF-8, which contracts see as the list of its bytes, over a `String`.
#[derive(Debug, Drop)]
pub struct Text {
    string: String,
}

impl Model for Text {
    ghost use Rattle.std.specs.Prelude.{ℕ, List, string_bytes};

    ghost Value = { List ℕ };

    ghost view = { λ t. string_bytes t.string };
}

impl Text {
    /// The empty text. It takes no memory.
    pub fn new(alloc: Global) -> Self
        ensures { result ≡ [] }
    {
        Text {
            string: String::new(alloc),
        }
    }

    /// A copy of these characters.
    pub fn from_str(alloc: Global, text: &str) -> Result<Self, OutOfMemory>
        ensures { IfOk result (λ copied. copied ≡ text.now) }
    {
        Ok(Text {
            string: String::from_str(alloc, text)?,
        })
    }

    /// The text of this string. It takes no memory.
    pub fn from_string(string: String) -> Self
        ensures { result ≡ string_bytes string }
    {
        Text { string }
    }

    /// The string. It takes no memory.
    pub fn into_string(self) -> String
        ensures { string_bytes result ≡ self }
    {
        self.string
    }

    /// Its length in bytes.
    pub fn len(&self) -> usize
        ensures { result ≡ length self.now }
    {
        self.string.len()
    }

    pub fn is_empty(&self) -> bool
        ensures { result ≡ (length self.now == 0) }
    {
        self.string.is_empty()
    }

    pub fn as_str(&self) -> &str
        ensures { result.now ≡ self.now }
    {
        self.string.as_str()
    }

    /// The allocator of the text, for what is made beside it.
    pub fn allocator(&self) -> Global {
        *self.string.allocator()
    }

    /// Adds these characters at the end. An `Err` leaves the text.
    pub fn push_str(&mut self, text: &str) -> Result<(), OutOfMemory>
        ensures ok { OnOk result (self.new ≡ self.old ++ text.now) }
        ensures err { OnErr result (self.new ≡ self.old) }
    {
        self.string.push_str(text)?;
        Ok(())
    }

    /// Adds a character at the end. An `Err` leaves the text.
    pub fn push(&mut self, character: char) -> Result<(), OutOfMemory>
        ensures ok { OnOk result (self.new ≡ self.old ++ encode_utf8 character) }
        ensures err { OnErr result (self.new ≡ self.old) }
    {
        self.string.push(character)?;
        Ok(())
    }

    /// Cuts all behind the first `place` bytes, where these are a text.
    pub fn truncate(&mut self, place: usize)
        requires { IsUtf8 (take place self.old) }
        ensures { self.new ≡ take place self.old }
    {
        self.string.truncate(place);
    }
}

impl TryCopy for Text {
    fn copy(&self, alloc: Global) -> Result<Self, OutOfMemory> {
        Text::from_str(alloc, self.as_str())
    }
}

impl PartialEq for Text {
    ghost eq = { eq_by_cmp text_cmp };

    ghost laws = { exact_per text_exact };

    fn eq(&self, other: &Text) -> bool
        ensures value { result ≡ eq_by_cmp text_cmp self.now other.now }
        ensures same { IsTrue result ↔ (self.now ≡ other.now) }
    {
        self.string == other.string
    }
}

impl Eq for Text {
    ghost laws = { exact_equiv text_exact };
}

impl Hash for Text {
    ghost hash_input = { fed.str };

    ghost respects_eq = { exact_alike text_exact fed.str };

    fn hash<H: Hasher>(&self, state: &mut H) {
        self.string.hash(state);
    }
}

impl PartialOrd for Text {
    ghost partial_cmp = { as_partial_cmp text_cmp };

    ghost laws = { partial_order_from_total text_exact.total };

    fn partial_cmp(&self, other: &Text) -> Option<Ordering> {
        Some(self.cmp(other))
    }
}

impl Ord for Text {
    ghost cmp = { text_cmp };

    ghost total = { text_exact.total };

    ghost matches_partial_cmp = { λ _ _. refl };

    ghost matches_eq = { λ _ _. refl };

    fn cmp(&self, other: &Text) -> Ordering {
        self.string.cmp(&other.string)
    }
}
