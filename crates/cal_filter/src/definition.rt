//! A definition of LET, over snapshots by number.
ghost use Rattle.std.specs.Prelude.{◌≡◌, Some, map, option_and_then, option_map, IfOk, OnOk};
ghost use Rattle.std.specs.Option.{ForSome};
ghost use Rattle.cal_agg.specs.Numbers.{IsSmall};
ghost use Rattle.cal_filter.specs.Numbers.{value_of_number as value_of};
ghost use Rattle.std.specs.List.{All};
ghost use Rattle.cal_context.specs.Lists.{IsFront};
ghost use Rattle.cal_context.specs.Snapshots.{IsIn, meaning};
ghost use Rattle.cal_filter.specs.Kept.{with_let, with_result};
ghost use Rattle.cal_filter.specs.Known.{sought};
ghost use Rattle.cal_filter.specs.Latest.{AreNamed, AreReadyOperands, Follows, IsLatest};
ghost use Rattle.cal_filter.specs.Sought.{number_sought};
ghost use Rattle.cal_value.specs.Flat.{flat};
ghost use Rattle.cal_filter.specs.Lets.{let_value, limited, operation};
ghost use Rattle.cal_filter.specs.Named.{HasSmallNumbers};
ghost use Rattle.cal_filter.specs.Ready.{IsDefinition, IsReadyDefinition};
ghost use Rattle.cal_filter.specs.Replaced.{CatchesUpByNumbers};
ghost use Rattle.cal_filter.specs.Results.{number_for};
ghost use Rattle.cal_ql.specs.declared.query.Let.{Let as LetOf};
ghost use Rattle.cal_ql.specs.Valid.{IsLet};
ghost use Rattle.cal_context.specs.Tree.{Grows};

use crate::kinds::{kind_of, kind_place};
use crate::latest::{Latest, number_names};
use crate::operands::{
    catch_up_by_numbers, fill_numbers, first_found, name_at, number_found, seekers_of,
};
use crate::operation::{Operator, let_number};
use crate::results::result_attributes;
use crate::seeker::Seeker;
use crate::value_of_number;
use cal_agg::Num;
use cal_context::{AttributeNumber, Context, Immediate, Snapshot};
use cal_ql::{Let, Op};
use cal_seeds::Seeds;
use cal_value::{Kind, OutOfMemory, Text, Variant};
use indexmap::IndexSet;
use std::alloc::Global;

/// A definition of LET, over snapshots by number.
#[derive(Drop)]
pub(crate) struct Definition {
    operator: Operator,
    // one for each name
    seekers: Vec<Seeker>,
    // the numbers of the names
    names: Vec<usize>,
    // of a result of each kind, by the kinds' places
    attributes: [AttributeNumber; 9],
}

impl Definition {
    /// A definition, whose results' attributes are added to the context, and its names to these.
    pub(crate) fn new(
        alloc: Global,
        definition: &Let,
        names: &mut IndexSet<Text, Seeds>,
        context: &mut Context,
    ) -> Result<Definition, OutOfMemory>
        requires { IsLet definition.now }
        ensures ready { IfOk result (IsDefinition context.new definition.now) }
        ensures named { IfOk result (AreNamed names.new.keys) }
        ensures front { OnOk result (IsFront names.old.keys names.new.keys) }
        ensures grows { Grows context.old context.new }
    {
        let seekers = seekers_of(alloc, definition.op, definition.args.as_slice())?;
        let names = number_names(alloc, definition.args.as_slice(), names)?;
        let attributes = result_attributes(alloc, &definition.name, context)?;
        Ok(Definition {
            operator: Operator {
                op: definition.op,
                n: definition.n,
            },
            seekers,
            names,
            attributes,
        })
    }

    /// Gets to know what is new in a context, whose attributes' names have numbers.
    pub(crate) fn catch_up(&mut self, latest: &Latest, context: &Context) -> Result<(), OutOfMemory>
        ensures { OnOk result (CatchesUpByNumbers context.now latest.now self.old self.new) }
    {
        catch_up_by_numbers(&mut self.seekers, &self.names, latest, context)
    }

    /// Appends the immediate of the definition, where it has a value, and notes it. `numbers` is
    /// room to work in.
    pub(crate) fn apply(
        &self,
        alloc: Global,
        latest: &mut Latest,
        context: &Context,
        snapshot: &mut Snapshot,
        numbers: &mut Vec<Option<Num>>,
    ) -> Result<(), OutOfMemory>
        requires { IsIn context.now snapshot.old }
        ensures within { OnOk result (IsIn context.now snapshot.new) }
        ensures nodes { OnOk result (snapshot.new.nodes.items ≡ snapshot.old.nodes.items) }
        ensures follows { OnOk result (Follows context.now latest.old snapshot.old.imms.items
            latest.new snapshot.new.imms.items) }
        ensures adds { OnOk result ((l : LetOf) → IsReadyDefinition context.now l self.now
            → AreNamed latest.old.names.keys self.now
            → IsLatest context.now latest.old snapshot.old.imms.items
            → HasSmallNumbers (meaning context.now snapshot.old)
            → meaning context.now snapshot.new ≡ with_let (meaning context.now snapshot.old) l) }
    {
        let Some(value) = self.value(alloc, latest, context, snapshot, numbers)? else {
            return Ok(());
        };
        self.append(latest, context, value, snapshot)
    }

    /// The value of the definition on a record.
    fn value(
        &self,
        alloc: Global,
        latest: &Latest,
        context: &Context,
        snapshot: &Snapshot,
        numbers: &mut Vec<Option<Num>>,
    ) -> Result<Option<Variant>, OutOfMemory>
        requires { IsIn context.now snapshot.now }
        ensures { IfOk result (λ value. (l : LetOf) → IsReadyDefinition context.now l self.now
            → AreNamed latest.now.names.keys self.now
            → IsLatest context.now latest.now snapshot.now.imms.items
            → HasSmallNumbers (meaning context.now snapshot.now)
            → value ≡ let_value l (meaning context.now snapshot.now)) }
    {
        match self.operator.op {
            Op::First => first_found(alloc, &self.seekers, &self.names, latest, context, snapshot),
            _ => self.value_of_numbers(latest, context, snapshot, numbers),
        }
    }

    /// The same of an operator over numbers. A single one takes no room.
    fn value_of_numbers(
        &self,
        latest: &Latest,
        context: &Context,
        snapshot: &Snapshot,
        numbers: &mut Vec<Option<Num>>,
    ) -> Result<Option<Variant>, OutOfMemory>
        requires { IsIn context.now snapshot.now }
        ensures { IfOk result (λ value. AreReadyOperands context.now latest.now
            snapshot.now.imms.items self.now.seekers.items self.now.names.items
            → HasSmallNumbers (meaning context.now snapshot.now)
            → value ≡ option_map value_of (option_and_then limited
            (operation self.now.operator.op self.now.operator.n (map (λ s.
            number_sought (sought s) (flat (meaning context.now snapshot.now)))
            self.now.seekers.items)))) }
    {
        if self.seekers.len() == 1 {
            let name = name_at(&self.names, 0);
            let number = number_found(&self.seekers[0], name, latest, context, snapshot);
            return self.result(&[number]);
        }
        fill_numbers(
            &self.seekers,
            &self.names,
            latest,
            context,
            snapshot,
            numbers,
        )?;
        self.result(numbers)
    }

    #[inline(always)]
    fn result(&self, numbers: &[Option<Num>]) -> Result<Option<Variant>, OutOfMemory>
        requires { All (λ number. ForSome number IsSmall) numbers.now }
        ensures { IfOk result (λ value. value ≡ option_map value_of (option_and_then limited
            (operation self.now.operator.op self.now.operator.n numbers.now))) }
    {
        // no operator takes more names
        if numbers.len() > 16 {
            return Err(OutOfMemory);
        }
        match let_number(self.operator, numbers) {
            Some(number) => Ok(Some(value_of_number(number))),
            None => Ok(None),
        }
    }

    fn append(
        &self,
        latest: &mut Latest,
        context: &Context,
        value: Variant,
        snapshot: &mut Snapshot,
    ) -> Result<(), OutOfMemory>
        requires { IsIn context.now snapshot.old }
        ensures within { OnOk result (IsIn context.now snapshot.new) }
        ensures nodes { OnOk result (snapshot.new.nodes.items ≡ snapshot.old.nodes.items) }
        ensures follows { OnOk result (Follows context.now latest.old snapshot.old.imms.items
            latest.new snapshot.new.imms.items) }
        ensures adds { OnOk result ((l : LetOf) → IsReadyDefinition context.now l self.now
            → meaning context.now snapshot.new
            ≡ with_result (meaning context.now snapshot.old) l.name (Some value)) }
    {
        let attribute = self.attribute(kind_of(&value));
        if attribute.0 as usize >= context.attribute_count() {
            return Err(OutOfMemory);
        }
        let imm = Immediate { attribute, value };
        latest.note(snapshot.imms.len(), &imm);
        snapshot.imms.push(imm)?;
        Ok(())
    }

    fn attribute(&self, kind: Kind) -> AttributeNumber
        ensures { result ≡ number_for self.now.attributes kind }
    {
        self.attributes
            .get(kind_place(kind))
            .copied()
            .unwrap_or(AttributeNumber(0))
    }
}
