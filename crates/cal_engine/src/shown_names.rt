ghost use Rattle.std.specs.Prelude.{◌≡◌, ◌<◌, false, length, map, OnOk, IfOk, All};
ghost use Rattle.cal_context.specs.Snapshots.{entry_of};
ghost use Rattle.cal_context.specs.Tree.{attribute_at};
ghost use Rattle.cal_engine.specs.Learning.{learned, learned_one, names_beside, plain_names};
ghost use Rattle.cal_engine.specs.Visiting.{KnowsNames};

use crate::columns::learn;
use cal_context::{AttributeNumber, Context, Immediate};
use cal_rowset::is_of_hierarchy;
use cal_seeds::Seeds;
use cal_value::{OutOfMemory, Text};
use indexmap::IndexSet;
use std::alloc::Global;

/// Names that are learned from the attributes of a context, each once.
#[derive(Drop)]
pub(crate) struct ShownNames {
    pub(crate) names: IndexSet<Text, Seeds>,
    // by an attribute's number, whether its name is known to be among them
    known: Vec<bool>,
}

impl ShownNames {
    /// These names, of which no attribute is known to have one.
    pub(crate) fn new(
        alloc: Global,
        context: &Context,
        names: IndexSet<Text, Seeds>,
    ) -> Result<ShownNames, OutOfMemory>
        ensures names { IfOk result (λ shown. shown.names.keys ≡ names.keys) }
        ensures knows { IfOk result (KnowsNames context.now) }
    {
        Ok(ShownNames {
            names,
            known: vec![in alloc; false; context.attribute_count()]?,
        })
    }

    /// Learns the names of attributes on a path, those of the hierarchy aside.
    pub(crate) fn learn_trail(
        &mut self,
        alloc: Global,
        context: &Context,
        trail: &[AttributeNumber],
    ) -> Result<(), OutOfMemory>
        requires within { All (λ a. a.0 < length context.now.attributes) trail.now }
        requires knows { KnowsNames context.now self.old }
        ensures knows { OnOk result (KnowsNames context.now self.new) }
        ensures learned { OnOk result (self.new.names.keys ≡ learned self.old.names.keys
            (plain_names (map (attribute_at context.now) trail.now))) }
    {
        for attribute in trail {
            if !is_of_hierarchy(context.attribute_at(*attribute)) {
                self.learn_one(alloc, context, *attribute)?;
            }
        }
        Ok(())
    }

    /// Learns the names of immediates.
    pub(crate) fn learn_immediates(
        &mut self,
        alloc: Global,
        context: &Context,
        imms: &[Immediate],
    ) -> Result<(), OutOfMemory>
        requires within { All (λ i. i.attribute.0 < length context.now.attributes) imms.now }
        requires knows { KnowsNames context.now self.old }
        ensures knows { OnOk result (KnowsNames context.now self.new) }
        ensures learned { OnOk result (self.new.names.keys ≡ learned self.old.names.keys
            (names_beside false (map (entry_of context.now) imms.now))) }
    {
        for imm in imms {
            self.learn_one(alloc, context, imm.attribute)?;
        }
        Ok(())
    }

    /// Learns the name of an attribute.
    fn learn_one(
        &mut self,
        alloc: Global,
        context: &Context,
        attribute: AttributeNumber,
    ) -> Result<(), OutOfMemory>
        requires within { attribute.0 < length context.now.attributes }
        requires knows { KnowsNames context.now self.old }
        ensures knows { OnOk result (KnowsNames context.now self.new) }
        ensures learned { OnOk result (self.new.names.keys
            ≡ learned_one self.old.names.keys (attribute_at context.now attribute).name) }
    {
        let place = attribute.0 as usize;
        if self.known[place] {
            return Ok(());
        }
        learn(
            alloc,
            &mut self.names,
            &context.attribute_at(attribute).name,
        )?;
        self.known[place] = true;
        Ok(())
    }
}
