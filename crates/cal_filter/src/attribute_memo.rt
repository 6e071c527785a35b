//! What is true of which attributes.
ghost use Rattle.std.specs.Prelude.{◌≡◌, ℕ, ◌==◌, ◌+◌, ◌<◌, ◌≤◌, Bool, false, [], ◌∷◌, ◌++◌, drop};
ghost use Rattle.std.specs.Prelude.{length, slice_index_or, IsTrue, OnOk, OnErr};
ghost use Rattle.std.specs.List.{list_any};
ghost use Rattle.std.specs.List.Sorted.{IsNonDecreasing};
ghost use Rattle.cal_filter.specs.Memo.{ArePlaces, marked};

use cal_context::AttributeNumber;
use cal_value::OutOfMemory;
use std::alloc::Global;
use std::marker::Model;

/// What is true of which attributes of a context, by their numbers. Only an attribute of which it
/// is true takes memory, so that what is true of few costs little, however many there are.
#[derive(Drop)]
pub struct AttributeMemo {
    // the places of the attributes of which it is true, in order
    places: Vec<usize>,
    // of how many attributes something is kept
    count: usize,
}

impl Model for AttributeMemo {
    ghost use Rattle.std.specs.Prelude.{Bool, List};
    ghost use Rattle.cal_filter.specs.Memo.{ArePlaces, marked};

    ghost Value = { List Bool };

    ghost view = { λ s. marked s.places.items s.count };

    ghost invariant = { λ s. ArePlaces s.places.items s.count };
}

impl AttributeMemo {
    /// Of no attribute. It takes no memory.
    pub fn new(alloc: Global) -> AttributeMemo
        ensures { result ≡ [] }
    {
        AttributeMemo {
            places: Vec::new(alloc),
            count: 0,
        }
    }

    /// Of how many attributes something is kept.
    pub fn len(&self) -> usize
        ensures { result ≡ length self.now }
    {
        let _ = &self.places;
        self.count
    }

    /// Whether it is true of none.
    pub fn is_none(&self) -> bool
        ensures { IsTrue result → (n : ℕ) → slice_index_or self.now n false ≡ false }
    {
        let _ = self.count;
        self.places.is_empty()
    }

    /// Whether it is true of an attribute.
    pub fn get(&self, attribute: AttributeNumber) -> bool
        ensures { result ≡ slice_index_or self.now attribute.0 false }
    {
        let _ = self.count;
        is_among(&self.places, attribute.0 as usize)
    }

    /// Keeps whether it is true of one attribute more.
    pub fn push(&mut self, holds: bool) -> Result<(), OutOfMemory>
        ensures { OnOk result (self.new ≡ self.old ++ holds ∷ []) }
    {
        let Some(count) = self.count.checked_add(1) else {
            return Err(OutOfMemory);
        };
        add_place(&mut self.places, self.count, holds)?;
        self.count = count;
        Ok(())
    }

    /// Keeps whether it is true of the attributes that come next, up to so many: it is of those at
    /// these places. It takes time for the new ones of these.
    pub(crate) fn add_places(&mut self, places: &[usize], count: usize) -> Result<(), OutOfMemory>
        requires { ArePlaces places.now count }
        ensures { OnOk result (self.new
            ≡ self.old ++ drop (length self.old) (marked places.now count)) }
    {
        let _ = &self.places;
        if count <= self.count {
            return Ok(());
        }
        add_behind(&mut self.places, self.count, places, count)?;
        self.count = count;
        Ok(())
    }
}

/// Adds to the places below a first count those of others that aren't below it.
fn add_behind(
    places: &mut Vec<usize>,
    first: usize,
    others: &[usize],
    count: usize,
) -> Result<(), OutOfMemory>
    requires own { ArePlaces places.old.items first }
    requires others { ArePlaces others.now count }
    requires more { first ≤ count }
    ensures added { OnOk result (marked places.new.items count
        ≡ marked places.old.items first ++ drop first (marked others.now count)) }
    ensures ok { OnOk result (ArePlaces places.new.items count) }
    ensures err { OnErr result (ArePlaces places.new.items first) }
{
    let start = count_below(others, first);
    places.extend_from_slice(&others[start..])?;
    Ok(())
}

/// How many of places in order are below a limit.
fn count_below(places: &[usize], limit: usize) -> usize
    requires { IsNonDecreasing places.now }
    ensures within { result ≤ length places.now }
    ensures below { (k d : ℕ) → k < result → slice_index_or places.now k d < limit }
    ensures behind { (k d : ℕ) → result ≤ k → k < length places.now
        → limit ≤ slice_index_or places.now k d }
{
    places.partition_point(|place| *place < limit)
}

/// Whether a place is among these.
fn is_among(places: &[usize], place: usize) -> bool
    requires { IsNonDecreasing places.now }
    ensures { result ≡ list_any (λ other. other == place) places.now }
{
    places.binary_search(&place).is_ok()
}

/// Adds the place of the answer that comes next, if it is true.
fn add_place(places: &mut Vec<usize>, count: usize, holds: bool) -> Result<(), OutOfMemory>
    requires { ArePlaces places.old.items count }
    ensures added { OnOk result (marked places.new.items (count + 1)
        ≡ marked places.old.items count ++ holds ∷ []) }
    ensures ok { OnOk result (ArePlaces places.new.items (count + 1)) }
    ensures err { OnErr result (ArePlaces places.new.items count) }
{
    if !holds {
        return Ok(());
    }
    places.push(count)?;
    Ok(())
}
