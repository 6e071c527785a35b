ghost use Rattle.std.specs.Prelude.{◌≡◌, ◌++◌, [], IfOk, IsTrue, OnOk, codes, decimal, map};
ghost use Rattle.cal_write.specs.Lines.{field};

use crate::lines::write_ids;
use crate::page::Page;
use cal_value::OutOfMemory;
use std::alloc::Global;
use std::marker::Model;

// for how many lists of ids the field is kept at most
const SLOTS: usize = 16;

/// A list of ids of attributes, which contracts see, with the field that is written of it.
#[derive(Drop)]
pub(crate) struct IdField {
    ids: Vec<u32>,
    text: Page,
}

/// The fields of ids of attributes that were written last, since records have few different ones.
#[derive(Drop)]
pub(crate) struct IdFields {
    slots: Vec<IdField>,
}

impl Model for IdField {
    ghost use Rattle.std.specs.Prelude.{◌≡◌, ℕ, List, codes, decimal, map};
    ghost use Rattle.cal_write.specs.Lines.{field};

    ghost Value = { List ℕ };

    ghost view = { λ f. f.ids.items };

    ghost invariant = { λ f. f.text ≡ field (codes "attr") (map decimal f.ids.items) };
}

impl IdField {
    /// No id, which has no field. It takes no memory.
    fn new(alloc: Global) -> IdField
        ensures { result ≡ [] }
    {
        IdField {
            ids: Vec::new(alloc),
            text: Page::new(alloc),
        }
    }

    /// Takes these ids instead. An `Err` leaves none.
    #[inline(always)]
    fn set(&mut self, ids: &[u32]) -> Result<(), OutOfMemory>
        ensures { OnOk result (self.new ≡ ids.now) }
    {
        if are_same(self.ids.as_slice(), ids) {
            let _ = &self.text;
            return Ok(());
        }
        match fill(&mut self.ids, &mut self.text, ids) {
            Ok(()) => Ok(()),
            Err(error) => {
                self.ids.clear();
                self.text.clear();
                Err(error)
            }
        }
    }

    /// The field that is written of the ids.
    fn text(&self) -> &Page
        ensures { result.now ≡ field (codes "attr") (map decimal self.now) }
    {
        let _ = &self.ids;
        &self.text
    }
}

impl IdFields {
    /// Nothing was written yet.
    pub(crate) fn new(alloc: Global) -> Result<IdFields, OutOfMemory> {
        let mut slots = Vec::with_capacity(alloc, SLOTS)?;
        for _ in 0..SLOTS {
            slots.push(IdField::new(alloc))?;
        }
        Ok(IdFields { slots })
    }

    /// Appends the field of attributes of these ids, or none where there is no id. Where the ids
    /// came before it takes one comparison and one copy.
    #[inline(always)]
    pub(crate) fn write(&mut self, out: &mut Page, ids: &[u32]) -> Result<(), OutOfMemory>
        ensures { OnOk result (out.new ≡ out.old ++ field (codes "attr") (map decimal ids.now)) }
    {
        let Some(first) = ids.first() else {
            return Ok(());
        };
        match self.slots.get_mut(*first as usize % SLOTS) {
            Some(slot) => {
                slot.set(ids)?;
                out.put_page(slot.text())
            }
            None => write_ids(out, ",attr", ids),
        }
    }
}

/// Puts ids and their field in the place of others.
#[inline(never)]
fn fill(old: &mut Vec<u32>, text: &mut Page, ids: &[u32]) -> Result<(), OutOfMemory>
    ensures ids { OnOk result (old.new.items ≡ ids.now) }
    ensures text { OnOk result (text.new ≡ field (codes "attr") (map decimal ids.now)) }
{
    old.clear();
    text.clear();
    write_ids(text, ",attr", ids)?;
    old.extend_from_slice(ids)?;
    Ok(())
}

/// Whether two lists are the same. Most have a few ids, which are compared here one by one.
#[inline(always)]
fn are_same(ids: &[u32], others: &[u32]) -> bool
    ensures { IsTrue result → ids.now ≡ others.now }
{
    if ids.len() != others.len() {
        return false;
    }
    for place in 0..ids.len() {
        if ids[place] != others[place] {
            return false;
        }
    }
    true
}
