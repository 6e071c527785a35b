ghost use Rattle.std.specs.Prelude.{◌≡◌, ◌<◌, ◌++◌, ◌∷◌, [], List, ℕ, Some, false, length, map};
ghost use Rattle.std.specs.Prelude.{slice_get, slice_index_or, OnOk, IfSome, IsTrue};
ghost use Rattle.cal_script.specs.Parts.{is_among, place_of};
ghost use Rattle.cal_script.specs.Registers.{IsRegister};

use crate::Channel;
use cal_seeds::Seeds;
use cal_value::{Attribute, Entry, OutOfMemory, Seq, Text};
use indexmap::IndexSet;
use std::alloc::Global;

/// What goes by a name.
pub(crate) trait Named {
    ghost name_of: { Self → List ℕ };

    fn name(&self) -> &str
        ensures { result.now ≡ name_of self.now };
}

impl Named for Attribute {
    ghost name_of = { λ attribute. attribute.name };

    fn name(&self) -> &str {
        self.name.as_str()
    }
}

impl Named for Entry {
    ghost name_of = { λ entry. entry.attr.name };

    fn name(&self) -> &str {
        self.attr.name.as_str()
    }
}

impl Named for Channel {
    ghost name_of = { λ channel. channel.name };

    fn name(&self) -> &str {
        self.name.as_str()
    }
}

impl Named for Text {
    ghost name_of = { λ text. text };

    fn name(&self) -> &str {
        self.as_str()
    }
}

/// Items in the order in which they came, found by their names, no two of which are equal.
#[derive(Drop)]
pub(crate) struct Register<T> {
    pub(crate) items: Seq<T>,
    names: IndexSet<String, Seeds>,
    seeds: Seeds,
}

impl<T: Named + Drop> Register<T> {
    /// Nothing, where names are hashed by the seeds of a run. It takes no memory.
    pub(crate) fn new(alloc: Global, seeds: Seeds) -> Self
        ensures items { result.items ≡ [] }
        ensures kept { IsRegister T.name_of result }
    {
        Register {
            items: Seq::new(alloc),
            names: IndexSet::with_hasher(alloc, seeds),
            seeds,
        }
    }

    /// By what names are hashed here, and in registers that stand beside this one.
    pub(crate) fn seeds(&self) -> Seeds {
        self.seeds
    }

    /// Whether an item has this name.
    pub(crate) fn has(&self, name: &str) -> bool
        requires { IsRegister T.name_of self.now }
        ensures { result ≡ is_among (map T.name_of self.now.items) name.now }
    {
        self.names.contains(name)
    }

    /// The place of the item of this name.
    pub(crate) fn place(&self, name: &str) -> Option<usize>
        requires { IsRegister T.name_of self.now }
        ensures place { result ≡ place_of (map T.name_of self.now.items) name.now }
        ensures below { IfSome result (λ place. place < length self.now.items) }
        ensures named { IfSome result (λ place. (other : T)
            → T.name_of (slice_index_or self.now.items place other) ≡ name.now) }
    {
        self.names.get_index_of(name)
    }

    /// The same, looked for first at a place where it is likely.
    #[inline(always)]
    pub(crate) fn place_near(&self, likely: usize, name: &str) -> Option<usize>
        requires { IsRegister T.name_of self.now }
        ensures place { result ≡ place_of (map T.name_of self.now.items) name.now }
        ensures below { IfSome result (λ place. place < length self.now.items) }
        ensures named { IfSome result (λ place. (other : T)
            → T.name_of (slice_index_or self.now.items place other) ≡ name.now) }
    {
        if self.is_at(likely, name) {
            return Some(likely);
        }
        self.place(name)
    }

    /// Whether the item at a place has this name.
    #[inline(always)]
    fn is_at(&self, place: usize, name: &str) -> bool
        requires { IsRegister T.name_of self.now }
        ensures { IsTrue result
            → place_of (map T.name_of self.now.items) name.now ≡ Some place }
    {
        let items = self.items.as_slice();
        let count = self.names.len();
        if place >= count {
            return false;
        }
        name == items[place].name()
    }

    /// The item at a place, if there is one: it is the one that is found by its name.
    #[inline(always)]
    pub(crate) fn at(&self, place: usize) -> Option<&T>
        requires { IsRegister T.name_of self.now }
        ensures item { IfSome result (λ item. slice_get self.now.items place ≡ Some item.now) }
        ensures found { IfSome result (λ item.
            place_of (map T.name_of self.now.items) (T.name_of item.now) ≡ Some place) }
    {
        let items = self.items.as_slice();
        let count = self.names.len();
        if place >= count {
            return None;
        }
        Some(&items[place])
    }

    /// Adds an item, whose name no other has. After an `Err` the register is of no more use.
    pub(crate) fn add(&mut self, alloc: Global, item: T) -> Result<(), OutOfMemory>
        requires kept { IsRegister T.name_of self.old }
        requires fresh { is_among (map T.name_of self.old.items) (T.name_of item) ≡ false }
        ensures added { OnOk result (self.new.items ≡ self.old.items ++ item ∷ []) }
        ensures kept { OnOk result (IsRegister T.name_of self.new) }
    {
        self.names.insert(String::from_str(alloc, item.name())?)?;
        self.items.push(item)?;
        Ok(())
    }

    /// The items alone.
    pub(crate) fn into_items(self) -> Seq<T>
        ensures { result ≡ self.items }
    {
        let Register {
            items,
            names: _,
            seeds: _,
        } = self;
        items
    }
}
