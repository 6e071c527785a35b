ghost use Rattle.std.specs.Prelude.{◌≡◌, [], ◌∷◌, length, slice_get};
ghost use Rattle.std.specs.Prelude.{IfNone, IfOk, IfSome, OnErr, Some};
ghost use Rattle.std.specs.List.{Contains};
ghost use Rattle.cal_context.specs.Lists.{AreApart, Interns};
ghost use Rattle.cal_rowset.specs.Cells.{is_path};

use cal_seeds::Seeds;
use cal_value::{OutOfMemory, Text, TryCopy};
use indexmap::IndexSet;
use std::alloc::Global;
use std::marker::Model;

/// Names, each once, by places.
#[derive(Drop)]
pub struct Names {
    set: IndexSet<Text, Seeds>,
}

impl Model for Names {
    ghost use Rattle.std.specs.Prelude.{ℕ, List};

    ghost Value = { List (List ℕ) };

    ghost view = { λ n. n.set.keys };
}

impl Names {
    /// No name. It takes no memory. Names are hashed by numbers that everybody knows.
    pub fn new(alloc: Global) -> Self
        ensures { result ≡ [] }
    {
        Names::seeded(alloc, Seeds::fixed())
    }

    /// No name, where names are hashed by the seeds of a run. It takes no memory.
    pub fn seeded(alloc: Global, seeds: Seeds) -> Self
        ensures { result ≡ [] }
    {
        Names {
            set: IndexSet::with_hasher(alloc, seeds),
        }
    }

    /// The names by their places.
    pub fn as_slice(&self) -> &[Text]
        ensures names { result.now ≡ self.now }
        ensures apart { AreApart self.now }
    {
        self.set.as_slice()
    }

    /// The place of a name, by one look-up.
    pub fn place(&self, name: &Text) -> Option<usize>
        ensures found { IfSome result (λ place. slice_get self.now place ≡ Some name.now) }
        ensures unknown { IfNone result (¬ Contains self.now name.now) }
    {
        self.set.get_index_of(name)
    }

    /// The place of a name, which goes last where it is new.
    pub fn learn(&mut self, name: &Text) -> Result<usize, OutOfMemory>
        ensures learned { IfOk result (Interns self.old name.now self.new) }
        ensures err { OnErr result (self.new ≡ self.old) }
    {
        if let Some(place) = self.place(name) {
            return Ok(place);
        }
        let alloc = *self.set.allocator();
        let (place, _) = self.set.insert_full(name.copy(alloc)?)?;
        Ok(place)
    }
}

/// Whether a name is the hierarchy's.
pub fn is_path(name: &Text) -> bool
    ensures { result ≡ is_path name.now }
{
    name.as_str() == "path"
}
