ghost use Rattle.std.specs.Prelude.{◌≡◌, ℕ, ◌+◌, [], ◌∷◌, ◌++◌, List, length, OnOk};
ghost use Rattle.std.specs.Str.{IsUtf8};
ghost use Rattle.cal_tabfmt.specs.Kept.{AreLeft, Keeps};

use cal_value::{OutOfMemory, Text};
use std::alloc::Global;

/// Texts, one behind another, so that none has memory of its own.
#[derive(Drop)]
pub(crate) struct KeptTexts {
    pub(crate) all: Text,
    // of each text where it ends
    pub(crate) ends: Vec<usize>,
}

/// From where the rest of kept texts is read: the place of the next text, and where it begins.
#[derive(Clone, Copy, Debug)]
pub(crate) struct Mark {
    pub(crate) place: usize,
    pub(crate) start: usize,
}

impl KeptTexts {
    /// No text. It takes no memory.
    pub(crate) fn new(alloc: Global) -> Self
        ensures { Keeps result [] }
    {
        KeptTexts {
            all: Text::new(alloc),
            ends: Vec::new(alloc),
        }
    }

    /// Keeps a text more. An `Err` may leave a part of it.
    pub(crate) fn push(&mut self, text: &str) -> Result<(), OutOfMemory>
        ensures { OnOk result ((texts : List (List ℕ)) → Keeps self.old texts
            → Keeps self.new (texts ++ text.now ∷ [])) }
    {
        self.all.push_str(text)?;
        self.ends.push(self.all.len())?;
        Ok(())
    }

    /// The mark of all texts.
    pub(crate) fn first(&self) -> Mark
        ensures { (texts : List (List ℕ)) → Keeps self.now texts → AreLeft self.now result texts }
    {
        Mark { place: 0, start: 0 }
    }

    /// The text at a mark.
    pub(crate) fn text(&self, mark: Mark) -> &str
        ensures { (text : List ℕ) (texts : List (List ℕ)) → AreLeft self.now mark (text ∷ texts)
            → result.now ≡ text }
    {
        part(self.all.as_str(), mark.start, self.end(mark))
    }

    /// The mark behind the text at a mark.
    pub(crate) fn behind(&self, mark: Mark) -> Mark
        ensures { (text : List ℕ) (texts : List (List ℕ)) → AreLeft self.now mark (text ∷ texts)
            → AreLeft self.now result texts }
    {
        if mark.place >= self.ends.len() {
            return mark;
        }
        Mark {
            place: mark.place + 1,
            start: self.ends[mark.place],
        }
    }

    // where the text at a mark ends
    fn end(&self, mark: Mark) -> usize
        ensures { (text : List ℕ) (texts : List (List ℕ)) → AreLeft self.now mark (text ∷ texts)
            → result ≡ mark.start + length text }
    {
        if mark.place >= self.ends.len() {
            return mark.start;
        }
        self.ends[mark.place]
    }
}

// the part of a text between two places, if characters end there
fn part(text: &str, start: usize, end: usize) -> &str
    ensures { (front part rest : List ℕ) → text.now ≡ front ++ (part ++ rest)
        → start ≡ length front → end ≡ length front + length part → IsUtf8 (part ++ rest)
        → IsUtf8 rest → result.now ≡ part }
{
    if end < start {
        return "";
    }
    if !text.is_char_boundary(start) {
        return "";
    }
    if !text.is_char_boundary(end) {
        return "";
    }
    &text[start..end]
}
