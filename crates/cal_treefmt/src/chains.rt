ghost use Rattle.std.specs.Prelude.{◌≡◌, ℕ, suc, ◌<◌, List, length, None, IfOk};
ghost use Rattle.std.specs.Prelude.{slice_index_or};
ghost use Rattle.std.specs.List.{All};
ghost use Rattle.cal_context.specs.declared.numbers.NodeNumber as numbers;
ghost use Rattle.cal_treefmt.specs.Chains.{IsChained, IsNext, key_at};

use cal_context::NodeNumber;
use cal_value::OutOfMemory;
use std::alloc::Global;

/// The places of a list at which a key stands, for each key: the first, and from each the next.
#[derive(Drop)]
pub(crate) struct Chains {
    // of each key its first place
    first: Vec<Option<usize>>,
    // of each place the next one with its key
    next: Vec<Option<usize>>,
}

impl Chains {
    /// The chains of these keys, each of which is less than `count`.
    pub(crate) fn new(alloc: Global, keys: &[NodeNumber], count: usize) -> Result<Self, OutOfMemory>
        requires { All (λ key. key.0 < count) keys.now }
        ensures { IfOk result (λ chains. IsChained keys.now count chains) }
    {
        let mut first = no_places(alloc, count)?;
        let mut next = no_places(alloc, keys.len())?;
        for place in (0..keys.len()).rev() {
            let key = keys[place].0 as usize;
            next[place] = first[key];
            first[key] = Some(place);
        }
        Ok(Chains { first, next })
    }

    /// The first place of a key.
    pub(crate) fn first(&self, key: usize) -> Option<usize>
        ensures { (keys : List numbers.NodeNumber) (count : ℕ) → IsChained keys count self.now
            → key < count → IsNext keys 0 key result }
    {
        *self.first.as_slice().get(key)?
    }

    /// The next place with the key of a place.
    pub(crate) fn next(&self, place: usize) -> Option<usize>
        ensures { (keys : List numbers.NodeNumber) (count : ℕ) → IsChained keys count self.now
            → place < length keys → IsNext keys (suc place) (key_at keys place) result }
    {
        *self.next.as_slice().get(place)?
    }
}

// no place, so many times
fn no_places(alloc: Global, count: usize) -> Result<Vec<Option<usize>>, OutOfMemory>
    ensures counted { IfOk result (λ places. length places.items ≡ count) }
    ensures none { IfOk result (λ places. (k : ℕ) → slice_index_or places.items k None ≡ None) }
{
    let mut places = Vec::with_capacity(alloc, count)?;
    for _place in 0..count {
        places.push(None)?;
    }
    Ok(places)
}
