ghost use Rattle.std.specs.Prelude.{◌≡◌, ◌<◌, ◌++◌, ◌∷◌, [], length, slice_get, take};
ghost use Rattle.std.specs.Prelude.{IfOk, IfSome, OnOk, OnErr};
ghost use Rattle.cal_parts.specs.PartLists.{merged_at};
ghost use Rattle.cal_parts.specs.Parts.{part_over};
ghost use Rattle.cal_parts.specs.Shown.{ComesTo};

use crate::narrow_part::NarrowPart;
use crate::part::Part;
use cal_agg::Num;
use cal_ql::KernelName;
use cal_value::OutOfMemory;
use std::alloc::Global;
use std::marker::Model;

/// Parts one behind another, all narrow until one isn't.
#[derive(Drop)]
pub(crate) struct PartList {
    form: Form,
}

#[derive(Drop)]
enum Form {
    Narrow(Vec<NarrowPart>),
    Wide(Vec<Part>),
}

impl Model for PartList {
    ghost use Rattle.std.specs.Prelude.{List};
    ghost use Rattle.cal_parts.specs.Parts.{Gathered};
    ghost use Rattle.cal_parts.specs.PartLists.{parts_in};

    ghost Value = { List Gathered };

    ghost view = { λ l. parts_in l.form };
}

impl PartList {
    /// No part. It takes no memory.
    pub fn new(alloc: Global) -> PartList
        ensures { result ≡ [] }
    {
        PartList {
            form: Form::Narrow(Vec::new(alloc)),
        }
    }

    /// How many there are.
    #[inline(always)]
    pub fn len(&self) -> usize
        ensures { result ≡ length self.now }
    {
        match &self.form {
            Form::Narrow(parts) => parts.len(),
            Form::Wide(parts) => parts.len(),
        }
    }

    /// The part at a place.
    #[inline(always)]
    pub fn get(&self, place: usize) -> Option<Part>
        ensures { result ≡ slice_get self.now place }
    {
        match &self.form {
            Form::Narrow(parts) => Some(parts.get(place)?.wide()),
            Form::Wide(parts) => Some(parts.get(place)?.twin()),
        }
    }

    /// What a kernel comes to of the part at a place, where that is a number which stands there.
    #[inline(always)]
    pub fn shown(&self, place: usize, kernel: KernelName) -> Option<i64>
        ensures { IfSome result (ComesTo kernel (slice_get self.now place)) }
    {
        match &self.form {
            Form::Narrow(parts) => parts.get(place)?.shown(kernel),
            Form::Wide(_) => None,
        }
    }

    /// Adds a number to the part at a place.
    #[inline(always)]
    pub fn add(
        &mut self,
        alloc: Global,
        place: usize,
        kernel: KernelName,
        number: &Num,
    ) -> Result<(), OutOfMemory>
        requires { place < length self.old }
        ensures added { OnOk result (self.new
            ≡ merged_at self.old place (part_over kernel (number.now ∷ []))) }
        ensures long { length self.new ≡ length self.old }
    {
        if let Form::Narrow(parts) = &mut self.form {
            if let Some(narrow) = parts[place].with(kernel, number) {
                parts[place] = narrow;
                return Ok(());
            }
        }
        self.add_wide(alloc, place, kernel, number)
    }

    /// The same, where all parts are wide from now on.
    #[inline(never)]
    fn add_wide(
        &mut self,
        alloc: Global,
        place: usize,
        kernel: KernelName,
        number: &Num,
    ) -> Result<(), OutOfMemory>
        requires { place < length self.old }
        ensures added { OnOk result (self.new
            ≡ merged_at self.old place (part_over kernel (number.now ∷ []))) }
        ensures long { length self.new ≡ length self.old }
    {
        self.widen(alloc)?;
        match &mut self.form {
            Form::Wide(parts) => parts[place].add(kernel, number),
            Form::Narrow(_) => Err(OutOfMemory),
        }
    }

    /// Takes a part in behind the one at a place. The 2^32nd number and a part of another kernel are
    /// answered as want of memory is.
    pub fn merge(&mut self, alloc: Global, place: usize, part: &Part) -> Result<(), OutOfMemory>
        requires { place < length self.old }
        ensures merged { OnOk result (self.new ≡ merged_at self.old place part.now) }
        ensures long { length self.new ≡ length self.old }
    {
        if let Form::Narrow(parts) = &mut self.form {
            if let Some(narrow) = parts[place].merged(part) {
                parts[place] = narrow;
                return Ok(());
            }
        }
        self.merge_wide(alloc, place, part)
    }

    /// The same, where all parts are wide from now on.
    fn merge_wide(&mut self, alloc: Global, place: usize, part: &Part) -> Result<(), OutOfMemory>
        requires { place < length self.old }
        ensures merged { OnOk result (self.new ≡ merged_at self.old place part.now) }
        ensures long { length self.new ≡ length self.old }
    {
        self.widen(alloc)?;
        match &mut self.form {
            Form::Wide(parts) => parts[place].merge(part),
            Form::Narrow(_) => Err(OutOfMemory),
        }
    }

    /// Adds a part at the end.
    pub fn push(&mut self, alloc: Global, part: Part) -> Result<(), OutOfMemory>
        ensures ok { OnOk result (self.new ≡ self.old ++ part ∷ []) }
        ensures err { OnErr result (self.new ≡ self.old) }
    {
        if let Form::Narrow(parts) = &mut self.form {
            if let Some(narrow) = NarrowPart::of(&part) {
                parts.push(narrow)?;
                return Ok(());
            }
        }
        self.widen(alloc)?;
        match &mut self.form {
            Form::Wide(parts) => {
                parts.push(part)?;
                Ok(())
            }
            Form::Narrow(_) => Err(OutOfMemory),
        }
    }

    /// Drops the parts from a place on.
    pub fn truncate(&mut self, count: usize)
        ensures { self.new ≡ take count self.old }
    {
        match &mut self.form {
            Form::Narrow(parts) => parts.truncate(count),
            Form::Wide(parts) => parts.truncate(count),
        }
    }

    /// Makes all parts wide.
    fn widen(&mut self, alloc: Global) -> Result<(), OutOfMemory>
        ensures { self.new ≡ self.old }
    {
        if let Form::Narrow(parts) = &mut self.form {
            let wide = all_wide(alloc, parts)?;
            self.form = Form::Wide(wide);
        }
        Ok(())
    }
}

/// The same parts.
fn all_wide(alloc: Global, parts: &[NarrowPart]) -> Result<Vec<Part>, OutOfMemory>
    ensures { IfOk result (λ wide. wide.items ≡ parts.now) }
{
    let mut wide = Vec::with_capacity(alloc, parts.len())?;
    for part in parts {
        wide.push(part.wide())?;
    }
    Ok(wide)
}
