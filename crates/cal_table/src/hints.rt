ghost use Rattle.std.specs.Prelude.{◌<◌};

use crate::TableKey;
use std::alloc::Global;

/// How many hints there are at most.
const HINTS: usize = 4096;

/// For the nodes that stand first in keys, the number of the row that was last found there: where
/// snapshots there have one key, the next one needs no look-up. Nodes share a hint whose numbers
/// differ by a multiple of 4,096, so that the list stays short however large the tree is. What isn't
/// known is any number.
#[derive(Drop)]
pub(crate) struct Hints {
    last: Vec<Hint>,
}

// The number of the row that was last found at a node, and whether it was found there twice in a
// row.
#[derive(Clone, Copy)]
struct Hint {
    number: u32,
    twice: bool,
}

impl Hints {
    /// No hint. It takes no memory.
    pub(crate) fn new(alloc: Global) -> Hints {
        Hints {
            last: Vec::new(alloc),
        }
    }

    /// The number of the row that was found at the first node of a key twice in a row, if there is
    /// one.
    pub(crate) fn at(&self, key: &TableKey) -> Option<usize> {
        match self.last.get(place_of(key)) {
            Some(hint) if hint.twice => Some(hint.number as usize),
            _ => None,
        }
    }

    /// Keeps the number of the row of a key, where there is memory for it.
    pub(crate) fn keep(&mut self, key: &TableKey, number: usize) {
        let Ok(number) = u32::try_from(number) else {
            return;
        };
        let place = place_of(key);
        let none = Hint {
            number,
            twice: false,
        };
        if place >= self.last.len() && self.last.resize(place + 1, none).is_err() {
            return;
        }
        if place < self.last.len() {
            let twice = self.last[place].number == number;
            self.last[place] = Hint { number, twice };
        }
    }
}

/// The place of the hint of a key's first node, or of the root.
fn place_of(key: &TableKey) -> usize
    ensures { result < 4096 }
{
    match key.refs.as_slice().first() {
        Some(node) => node.0 as usize % HINTS,
        None => 0,
    }
}
