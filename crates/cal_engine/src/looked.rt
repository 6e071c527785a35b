//! Which immediates a query looks at.
ghost use Rattle.std.specs.Prelude.{◌≡◌, ◌||◌, IfOk, OnOk, codes};
ghost use Rattle.cal_context.specs.Tree.{Tree};
ghost use Rattle.cal_rowset.specs.Texts.{first_seen, is_same};
ghost use Rattle.cal_engine.specs.Looked.{IsLooked, LooksAll, has_some_name, is_looked};
ghost use Rattle.cal_engine.specs.Looked.{looks_at as looks_at_so, spoken_names as spoken_names_so};

use crate::fold::is_aggregated;
use crate::spoken::spoken_names;
use cal_context::{AttributeNumber, Context};
use cal_filter::AttributeMemo;
use cal_ql::Query;
use cal_seeds::Seeds;
use cal_value::{Attribute, OutOfMemory, Text};
use indexmap::IndexSet;
use std::alloc::Global;

/// Which immediates a query looks at. An aggregated query needn't see the others, so that they
/// aren't copied.
#[derive(Drop)]
pub(crate) struct Looked {
    // all names that the query speaks of, each once
    names: IndexSet<Text, Seeds>,
    // of each attribute: whether its immediates are looked at
    attributes: AttributeMemo,
}

impl Looked {
    /// It knows no attribute yet. Names hash by these seeds.
    pub(crate) fn new(alloc: Global, seeds: Seeds, query: &Query) -> Result<Looked, OutOfMemory>
        ensures { IfOk result (λ looked. (t : Tree) → IsLooked t query.now looked) }
    {
        Ok(Looked {
            names: spoken_names(alloc, seeds, query)?,
            attributes: AttributeMemo::new(alloc),
        })
    }

    /// Gets to know the attributes that are new in a context: each one's name is looked for once.
    pub(crate) fn catch_up(&mut self, query: &Query, context: &Context) -> Result<(), OutOfMemory>
        ensures { OnOk result (IsLooked context.now query.now self.old
            → LooksAll context.now query.now self.new) }
    {
        for place in self.attributes.len()..context.attribute_count() {
            let Ok(number) = u32::try_from(place) else {
                return Err(OutOfMemory);
            };
            let attribute = context.attribute_at(AttributeNumber(number));
            let looks = looks_at(query, &self.names, attribute);
            self.attributes.push(looks)?;
        }
        Ok(())
    }

    /// Whether the immediates of an attribute are looked at.
    pub(crate) fn has(&self, attribute: AttributeNumber) -> bool
        ensures { result ≡ is_looked self.now attribute }
    {
        let _ = &self.names;
        self.attributes.get(attribute)
    }
}

fn looks_at(query: &Query, names: &IndexSet<Text, Seeds>, attribute: &Attribute) -> bool
    ensures { names.now.keys ≡ first_seen (spoken_names_so query.now)
        → result ≡ looks_at_so query.now attribute.now }
{
    if !is_aggregated(query) {
        return true;
    }
    is_among(names, attribute)
}

/// Whether an attribute has one of these names, or is a record's weight.
fn is_among(names: &IndexSet<Text, Seeds>, attribute: &Attribute) -> bool
    ensures { result ≡ (has_some_name names.now.keys attribute.now
        || is_same attribute.now.name (codes "count")) }
{
    names.contains(&attribute.name) || is_weight(attribute)
}

fn is_weight(attribute: &Attribute) -> bool
    ensures { result ≡ is_same attribute.now.name (codes "count") }
{
    attribute.name.as_str() == "count"
}
