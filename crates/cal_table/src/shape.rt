ghost use Rattle.std.specs.Prelude.{◌≡◌, [], ◌∷◌, false, slice_index_or, IfOk};
ghost use Rattle.std.specs.List.{list_any};
ghost use Rattle.cal_table.specs.Looks.{looks_at as looks_by};
ghost use Rattle.cal_table.specs.Shapes.{flags_of as flags_by, is_among as among, shape_of};

use cal_value::{Attribute, OutOfMemory, Seq, Text, TryCopy};
use std::alloc::Global;
use std::hash::RandomState;
use std::slice;

/// What a table looks at: of each attribute, by its number, whether it is a key; and for each value
/// attribute, of each attribute whether it has that name.
#[derive(Debug, Drop)]
pub struct TableShape {
    pub keys: Seq<bool>,
    pub values: Seq<Seq<bool>>,
    /// By which its tables find their rows.
    pub hashers: RandomState,
}

impl TableShape {
    /// The shape of these names of keys and of value attributes, with attributes by their numbers
    /// in `attrs`. It takes time and memory in the attributes for each name.
    pub fn of(
        alloc: Global,
        hashers: RandomState,
        keys: &Seq<Text>,
        values: &Seq<Text>,
        attrs: &Seq<Attribute>,
    ) -> Result<TableShape, OutOfMemory>
        ensures { IfOk result (λ shape. shape ≡ shape_of hashers keys.now values.now attrs.now) }
    {
        let mut flags = Vec::with_capacity(alloc, values.len())?;
        for name in values.as_slice() {
            flags.push(flags_of(alloc, slice::from_ref(name), attrs)?)?;
        }
        Ok(TableShape {
            keys: flags_of(alloc, keys.as_slice(), attrs)?,
            values: Seq::from_vec(flags),
            hashers,
        })
    }

    /// Whether an attribute, by its number, is a key or a value attribute.
    pub fn looks_at(&self, attribute: u32) -> bool
        ensures { result ≡ looks_by self.now attribute }
    {
        flag_at(&self.keys, attribute) || is_flagged_by_one(self.values.as_slice(), attribute)
    }
}

fn is_flagged_by_one(values: &[Seq<bool>], attribute: u32) -> bool
    ensures { result ≡ list_any (λ flags. slice_index_or flags attribute false) values.now }
{
    for flags in values {
        if flag_at(flags, attribute) {
            return true;
        }
    }
    false
}

/// Whether an attribute is flagged.
pub(crate) fn flag_at(flags: &Seq<bool>, attribute: u32) -> bool
    ensures { result ≡ slice_index_or flags.now attribute false }
{
    match flags.as_slice().get(attribute as usize) {
        Some(flag) => *flag,
        None => false,
    }
}

/// Of each attribute whether it has one of the names.
fn flags_of(alloc: Global, names: &[Text], attrs: &Seq<Attribute>) -> Result<Seq<bool>, OutOfMemory>
    ensures { IfOk result (λ flags. flags ≡ flags_by names.now attrs.now) }
{
    let mut flags = Vec::with_capacity(alloc, attrs.len())?;
    for attr in attrs.as_slice() {
        flags.push(is_among(names, &attr.name))?;
    }
    Ok(Seq::from_vec(flags))
}

/// Whether a name is one of some.
fn is_among(names: &[Text], name: &Text) -> bool
    ensures { result ≡ among names.now name.now }
{
    for other in names {
        if name == other {
            return true;
        }
    }
    false
}

impl TryCopy for TableShape {
    fn copy(&self, alloc: Global) -> Result<TableShape, OutOfMemory> {
        let mut values = Vec::with_capacity(alloc, self.values.len())?;
        for flags in self.values.as_slice() {
            values.push(copied(alloc, flags)?)?;
        }
        Ok(TableShape {
            keys: copied(alloc, &self.keys)?,
            values: Seq::from_vec(values),
            hashers: self.hashers,
        })
    }
}

fn copied(alloc: Global, flags: &Seq<bool>) -> Result<Seq<bool>, OutOfMemory>
    ensures { IfOk result (λ copied. copied ≡ flags.now) }
{
    Ok(Seq::from_vec(Vec::from_slice(alloc, flags.as_slice())?))
}
