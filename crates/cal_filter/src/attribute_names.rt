//! Which of some names each attribute of a context has, and which attributes have each name.
ghost use Rattle.std.specs.Prelude.{◌≡◌, ◌<◌, [], ◌∷◌, ◌++◌, drop, length, map, None};
ghost use Rattle.std.specs.Prelude.{slice_index_or, OnOk, OnErr};
ghost use Rattle.cal_filter.specs.Memo.{AreRows, AreSameAt, HaveSameRows, IsPut, IsPutAt};
ghost use Rattle.cal_filter.specs.Memo.{is_of, row_at};

use crate::AttributeMemo;
use cal_context::AttributeNumber;
use cal_value::OutOfMemory;
use std::alloc::Global;
use std::marker::Model;

/// Of each attribute of a context the number of its name, if it is one of some names. For each name
/// its attributes stand in a row, so that who asks for one name looks at no other's attributes.
#[derive(Drop)]
pub(crate) struct AttributeNames {
    alloc: Global,
    // of each attribute: the number of its name, if it is one of these
    numbers: Vec<Option<usize>>,
    // of each name: the places of the attributes that have it, in order
    rows: Vec<Vec<usize>>,
}

impl Model for AttributeNames {
    ghost use Rattle.std.specs.Prelude.{ℕ, List, Option};
    ghost use Rattle.cal_filter.specs.Memo.{AreRows};

    ghost Value = { List (Option ℕ) };

    ghost view = { λ s. s.numbers.items };

    ghost invariant = { λ s. AreRows s.numbers.items s.rows.items };
}

impl AttributeNames {
    /// Of no attribute. It takes no memory.
    pub(crate) fn new(alloc: Global) -> AttributeNames
        ensures { result ≡ [] }
    {
        AttributeNames {
            alloc,
            numbers: Vec::new(alloc),
            rows: Vec::new(alloc),
        }
    }

    /// Of how many attributes something is kept.
    pub(crate) fn len(&self) -> usize
        ensures { result ≡ length self.now }
    {
        let _ = &self.rows;
        self.numbers.len()
    }

    /// The number of an attribute's name.
    pub(crate) fn get(&self, attribute: AttributeNumber) -> Option<usize>
        ensures { result ≡ slice_index_or self.now attribute.0 None }
    {
        let _ = &self.rows;
        number_at(&self.numbers, attribute)
    }

    /// Keeps the number of the name of one attribute more.
    pub(crate) fn push(&mut self, number: Option<usize>) -> Result<(), OutOfMemory>
        ensures { OnOk result (self.new ≡ self.old ++ number ∷ []) }
    {
        add_number(self.alloc, &mut self.numbers, &mut self.rows, number)?;
        Ok(())
    }

    /// Tells a memo which of the attributes that it lacks have the name of this number. It takes
    /// time for those that have it.
    pub(crate) fn tell(&self, name: usize, memo: &mut AttributeMemo) -> Result<(), OutOfMemory>
        ensures { OnOk result (memo.new
            ≡ memo.old ++ drop (length memo.old) (map (is_of name) self.now)) }
    {
        memo.add_places(row(&self.rows, name), self.numbers.len())?;
        Ok(())
    }
}

fn number_at(numbers: &[Option<usize>], attribute: AttributeNumber) -> Option<usize>
    ensures { result ≡ slice_index_or numbers.now attribute.0 None }
{
    numbers.get(attribute.0 as usize).copied().unwrap_or(None)
}

fn row(rows: &Vec<Vec<usize>>, name: usize) -> &[usize]
    ensures { result.now ≡ row_at rows.now.items name }
{
    match rows.get(name) {
        Some(row) => row.as_slice(),
        None => &[],
    }
}

/// Adds a number, and the attribute's place to the row of its name.
fn add_number(
    alloc: Global,
    numbers: &mut Vec<Option<usize>>,
    rows: &mut Vec<Vec<usize>>,
    number: Option<usize>,
) -> Result<(), OutOfMemory>
    requires { AreRows numbers.old.items rows.old.items }
    ensures added { OnOk result (numbers.new.items ≡ numbers.old.items ++ number ∷ []) }
    ensures ok { OnOk result (AreRows numbers.new.items rows.new.items) }
    ensures err { OnErr result (AreRows numbers.new.items rows.new.items) }
{
    let place = numbers.len();
    numbers.push(number)?;
    match number {
        None => Ok(()),
        Some(name) => match add_to_row(alloc, rows, name, place) {
            Ok(()) => Ok(()),
            Err(OutOfMemory) => {
                numbers.truncate(place);
                Err(OutOfMemory)
            }
        },
    }
}

/// Adds a place to a row.
fn add_to_row(
    alloc: Global,
    rows: &mut Vec<Vec<usize>>,
    name: usize,
    place: usize,
) -> Result<(), OutOfMemory>
    ensures ok { OnOk result (IsPut name place rows.old.items rows.new.items) }
    ensures err { OnErr result (HaveSameRows rows.old.items rows.new.items) }
{
    add_rows(alloc, rows, name)?;
    put_in_row(rows, name, place)?;
    Ok(())
}

/// Adds empty rows until there is one of this name.
fn add_rows(alloc: Global, rows: &mut Vec<Vec<usize>>, name: usize) -> Result<(), OutOfMemory>
    ensures there { OnOk result (name < length rows.new.items) }
    ensures ok { OnOk result (HaveSameRows rows.old.items rows.new.items) }
    ensures err { OnErr result (HaveSameRows rows.old.items rows.new.items) }
{
    while rows.len() <= name {
        let row = no_places(alloc);
        rows.push(row)?;
    }
    Ok(())
}

fn no_places(alloc: Global) -> Vec<usize>
    ensures { result.items ≡ [] }
{
    Vec::new(alloc)
}

fn put_in_row(rows: &mut Vec<Vec<usize>>, name: usize, place: usize) -> Result<(), OutOfMemory>
    requires { name < length rows.old.items }
    ensures ok { OnOk result (IsPutAt name place rows.old.items rows.new.items) }
    ensures err { OnErr result (AreSameAt rows.old.items rows.new.items) }
{
    rows[name].push(place)?;
    Ok(())
}
