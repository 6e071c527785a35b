ghost use Rattle.std.specs.Prelude.{◌≡◌, ◌<◌, [], ◌∷◌, ◌++◌, length, IfOk, OnOk, OnErr, IsOk};
ghost use Rattle.cal_board.specs.Slots.{front};

use cal_value::OutOfMemory;
use std::alloc::Global;
use std::marker::Model;

/// The most values of a slot.
const MOST_VALUES: usize = 128;

/// A list with memory for 128 items, as many as a slot may hold, from the start.
#[derive(Debug, Drop)]
pub struct Stack<T> {
    items: Vec<T>,
}

impl<T> Model for Stack<T> {
    ghost use Rattle.std.specs.Prelude.{List, ◌≤◌, vec_capacity};

    ghost Value = { List T };

    ghost view = { λ s. s.items.items };

    ghost invariant = { λ s. 128 ≤ vec_capacity s.items };
}

impl<T> Stack<T> {
    /// No item.
    pub(crate) fn new(alloc: Global) -> Result<Self, OutOfMemory>
        ensures { IfOk result (λ stack. stack ≡ []) }
    {
        Ok(Stack {
            items: Vec::with_capacity(alloc, MOST_VALUES)?,
        })
    }

    /// The items, the first one first.
    #[inline(always)]
    pub fn as_slice(&self) -> &[T]
        ensures { result.now ≡ self.now }
    {
        self.items.as_slice()
    }

    #[inline(always)]
    pub fn len(&self) -> usize
        ensures { result ≡ length self.now }
    {
        self.items.len()
    }

    /// Adds an item at the end, which takes no memory for the first 128. An `Err` leaves the list,
    /// and drops the item.
    #[inline(always)]
    pub(crate) fn push(&mut self, item: T) -> Result<(), OutOfMemory>
    where
        T: Drop,
        ensures ok { OnOk result (self.new ≡ self.old ++ item ∷ []) }
        ensures err { OnErr result (self.new ≡ self.old) }
        ensures room { length self.old < 128 → IsOk result }
    {
        match self.items.push(item) {
            Ok(()) => Ok(()),
            Err(_) => Err(OutOfMemory),
        }
    }

    /// Takes all items away, and keeps the memory.
    pub(crate) fn clear(&mut self)
    where
        T: Drop,
        ensures { self.new ≡ [] }
    {
        self.items.clear();
    }

    /// Puts one item in the place of all.
    pub(crate) fn begin(&mut self, item: T)
    where
        T: Drop,
        ensures { self.new ≡ item ∷ [] }
    {
        self.items.clear();
        self.items.push_reserved(item);
    }

    /// Takes the last item away, if there is one.
    #[inline(always)]
    pub(crate) fn drop_last(&mut self)
    where
        T: Drop,
        ensures { self.new ≡ front self.old }
    {
        let _ = self.items.pop();
    }

    /// Puts another item in the place of the last one.
    #[inline(always)]
    pub(crate) fn set_last(&mut self, item: T)
    where
        T: Drop,
        requires { 0 < length self.old }
        ensures { self.new ≡ front self.old ++ item ∷ [] }
    {
        let _ = self.items.pop();
        self.items.push_reserved(item);
    }
}
