//! Which name of GROUP BY takes the entries of an attribute.
ghost use Rattle.std.specs.Prelude.{◌≡◌, ℕ, ◌++◌, ◌∷◌, [], false, List, length, IfOk, OnOk, IsTrue};
ghost use Rattle.cal_context.specs.Tree.{Tree, attribute_at};
ghost use Rattle.cal_keys.specs.Takers.{AreTakers, HasPlaces, IsPlaced, IsTaker, KnowsTakers};
ghost use Rattle.cal_keys.specs.Takers.{lower_place, taker, taker_at};

use cal_context::{AttributeNumber, Context};
use cal_rowset::is_of_hierarchy;
use cal_seeds::Seeds;
use cal_value::{Attribute, OutOfMemory, Text, TryCopy};
use indexmap::IndexMap;
use std::alloc::Global;

/// Of an attribute: the place of the name that takes its entries in paths, and of the name that
/// takes those beside them.
#[derive(Clone, Copy)]
pub(crate) struct Taker {
    in_paths: Option<u32>,
    beside: Option<u32>,
}

/// Which name takes the entries of an attribute: the first of those that may. It is known of each
/// attribute by its number.
#[derive(Drop)]
pub(crate) struct Takers {
    // the first place of each name
    places: IndexMap<Text, u32, Seeds>,
    // that of `path`
    path: Option<u32>,
    // of each attribute
    known: Vec<Taker>,
}

impl Takers {
    /// Of these names, whose map hashes by these seeds. It knows no attribute yet.
    pub(crate) fn of(alloc: Global, seeds: Seeds, names: &[Text]) -> Result<Takers, OutOfMemory>
        ensures { IfOk result (λ takers. (t : Tree) → AreTakers t names.now takers) }
    {
        let places = places_of(alloc, seeds, names)?;
        let path = Text::from_str(alloc, "path")?;
        let path = places.get(&path).copied();
        Ok(Takers {
            places,
            path,
            known: Vec::new(alloc),
        })
    }

    /// Whether there is no name.
    pub(crate) fn is_none(&self) -> bool
        ensures { (names : List (List ℕ)) (t : Tree) → IsTrue result → AreTakers t names self.now
            → names ≡ [] }
    {
        let _ = &self.known;
        self.path.is_none() && self.places.is_empty()
    }

    /// The place of the name that takes the entries of an attribute in paths.
    pub(crate) fn in_paths(&self, attribute: AttributeNumber) -> Option<u32>
        ensures { result ≡ (taker_at self.now attribute).in_paths }
    {
        self.known_of(attribute).in_paths
    }

    /// The place of the name that takes the immediates of an attribute.
    pub(crate) fn beside(&self, attribute: AttributeNumber) -> Option<u32>
        ensures { result ≡ (taker_at self.now attribute).beside }
    {
        self.known_of(attribute).beside
    }

    fn known_of(&self, attribute: AttributeNumber) -> Taker
        ensures { result ≡ taker_at self.now attribute }
    {
        match self.known.get(attribute.0 as usize) {
            Some(taker) => *taker,
            None => Taker {
                in_paths: None,
                beside: None,
            },
        }
    }

    /// Gets to know the attributes that are new in a context.
    pub(crate) fn catch_up(&mut self, context: &Context) -> Result<(), OutOfMemory>
        ensures { OnOk result ((names : List (List ℕ))
            → AreTakers context.now names self.old → KnowsTakers context.now names self.new) }
    {
        for place in self.known.len()..context.attribute_count() {
            let Ok(number) = u32::try_from(place) else {
                return Err(OutOfMemory);
            };
            let attribute = context.attribute_at(AttributeNumber(number));
            let taker = self.taker_of(attribute);
            self.known.push(taker)?;
        }
        Ok(())
    }

    /// Who takes the entries of an attribute.
    fn taker_of(&self, attribute: &Attribute) -> Taker
        ensures { (names : List (List ℕ)) → HasPlaces names self.now
            → IsTaker names attribute.now result }
    {
        let beside = self.named(attribute);
        let in_paths = if is_of_hierarchy(attribute) {
            lower(self.path, beside)
        } else {
            beside
        };
        Taker { in_paths, beside }
    }

    /// The place of the attribute's name. `path` names no attribute.
    fn named(&self, attribute: &Attribute) -> Option<u32>
        ensures { (names : List (List ℕ)) → HasPlaces names self.now
            → result ≡ taker false names attribute.now }
    {
        let _ = &self.path;
        let _ = &self.known;
        if attribute.name.as_str() == "path" {
            return None;
        }
        self.places.get(&attribute.name).copied()
    }
}

/// The first place of each name.
fn places_of(
    alloc: Global,
    seeds: Seeds,
    names: &[Text],
) -> Result<IndexMap<Text, u32, Seeds>, OutOfMemory>
    ensures { IfOk result (λ places. IsPlaced names.now places) }
{
    let mut places = IndexMap::with_hasher(alloc, seeds);
    for (place, name) in names.iter().enumerate() {
        put_place(alloc, &mut places, name, place)?;
    }
    Ok(places)
}

/// Puts the place of a name where it has none.
fn put_place(
    alloc: Global,
    places: &mut IndexMap<Text, u32, Seeds>,
    name: &Text,
    place: usize,
) -> Result<(), OutOfMemory>
    ensures { OnOk result ((names : List (List ℕ)) → place ≡ length names
        → IsPlaced names places.old → IsPlaced (names ++ name.now ∷ []) places.new) }
{
    if places.contains_key(name) {
        return Ok(());
    }
    let Ok(place) = u32::try_from(place) else {
        return Err(OutOfMemory);
    };
    places.insert(name.copy(alloc)?, place)?;
    Ok(())
}

/// The lower of two places, or the one that there is.
fn lower(one: Option<u32>, other: Option<u32>) -> Option<u32>
    ensures { result ≡ lower_place one other }
{
    match (one, other) {
        (Some(one), Some(other)) => Some(if one < other { one } else { other }),
        (Some(one), None) => Some(one),
        (None, other) => other,
    }
}
