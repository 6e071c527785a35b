ghost use Rattle.std.specs.Prelude.{◌≡◌, [], ◌∷◌, ◌++◌, IfOk, OnOk, List, filter, map};
ghost use Rattle.cal_channel.specs.Channels.{Means};
ghost use Rattle.cal_channel.specs.Shown.{numbered_entry, plain_entry, value_shown};
ghost use Rattle.cal_hand.specs.Nodes.{NodeAt};
ghost use Rattle.cal_run.specs.Adding.{IsEventValue, MayAskFor, MayHavePlaces, ShowsSome};
ghost use Rattle.cal_run.specs.Held.{Shows};
ghost use Rattle.cal_run.specs.Numbers.{AreNamed, AreNamedInSome};
ghost use Rattle.cal_run.specs.Snapshots.{Sight, snapshot_of};
ghost use Rattle.cal_channel.specs.Closing.{IsRead};
ghost use Rattle.cal_channel.specs.Looked.{is_looked_at};
ghost use Rattle.cal_value.specs.declared.attribute.Attribute as attributes_of;
ghost use Rattle.cal_value.specs.declared.variant.Variant as variants;

use crate::{ClosedNodes, ShownEntry, ShownValue};
use cal_board::{Board, Draft};
use cal_context::{AttributeNumber, Immediate};
use cal_run::{EventValue, ImmediateSink, Moment, Numbers, Operation, Prober, add_immediates};
use cal_script::{Channel, Script};
use cal_snap::{NumberedEntry, NumberedSnap};
use cal_table::Table;
use cal_value::{OutOfMemory, Text, TryCopy, Variant};
use cal_words::NodeId;
use std::alloc::Global;
use std::mem;

/// The snapshot that is taken. Cleared and filled again, one serves for any number of snapshots.
#[derive(Drop)]
pub struct SnapDraft {
    pub nodes: Vec<NodeId>,
    pub entries: Vec<ShownEntry>,
    /// By which boards give their last values.
    lasts: Draft,
    /// The memory of an event's text, for the next one.
    room: Text,
}

/// A draft keeps the place of a value of the script, and a copy of another value.
impl ImmediateSink for SnapDraft {
    ghost use Rattle.std.specs.Prelude.{map};
    ghost use Rattle.cal_channel.specs.Shown.{immediate_shown};

    ghost imms = { λ draft values. map (immediate_shown values) draft.entries.items };

    fn push_number(&mut self, attribute: AttributeNumber, n: u64) -> Result<(), OutOfMemory> {
        self.entries.push(ShownEntry {
            attribute,
            value: ShownValue::Number(n),
        })?;
        Ok(())
    }

    fn push_value(
        &mut self,
        alloc: Global,
        script: &Script,
        attribute: AttributeNumber,
        value: EventValue<'_>,
    ) -> Result<(), OutOfMemory> {
        let _ = script;
        let value = shown_value(alloc, value, &mut self.room)?;
        self.entries.push(ShownEntry { attribute, value })?;
        Ok(())
    }

    fn push_values<N>(&mut self, alloc: Global, board: &Board<N>) -> Result<(), OutOfMemory> {
        self.lasts.clear();
        self.lasts.push_values(alloc, board)?;
        let none = Board::new(alloc);
        let lasts = self.lasts.finish(&none, &none)?;
        add_plain(alloc, &lasts.imms, &mut self.entries)?;
        Ok(())
    }
}

/// Adds copies of immediates.
fn add_plain(
    alloc: Global,
    imms: &[Immediate],
    entries: &mut Vec<ShownEntry>,
) -> Result<(), OutOfMemory>
    ensures { OnOk result (entries.new.items ≡ entries.old.items ++ map plain_entry imms.now) }
{
    for imm in imms {
        entries.push(ShownEntry {
            attribute: imm.attribute,
            value: ShownValue::Plain(imm.value.copy(alloc)?),
        })?;
    }
    Ok(())
}

/// The value that an event shows, as a draft keeps it. A text takes what `room` has.
fn shown_value(
    alloc: Global,
    value: EventValue<'_>,
    room: &mut Text,
) -> Result<ShownValue, OutOfMemory>
    ensures { IfOk result (λ shown. (values : List variants.Variant) (v : variants.Variant)
        → IsEventValue values value.entry v → value_shown values shown ≡ v) }
{
    match value {
        EventValue::Opened(place) => Ok(ShownValue::Opened(place)),
        EventValue::Lent(value) => Ok(ShownValue::Plain(copied(alloc, value, room)?)),
        EventValue::Absent => Ok(ShownValue::Plain(Variant::Bool(false))),
    }
}

/// A copy of a value. A text takes what `room` has.
fn copied(alloc: Global, value: &Variant, room: &mut Text) -> Result<Variant, OutOfMemory>
    ensures { IfOk result (λ copy. copy ≡ value.now) }
{
    match value {
        Variant::Text(text) => {
            let mut copy = mem::replace(room, Text::new(alloc));
            copy.truncate(0);
            copy.push_str(text.as_str())?;
            Ok(Variant::Text(copy))
        }
        _ => value.copy(alloc),
    }
}

/// Takes the text of the first entry away, for the next snapshot's: an event stands there.
fn keep_text(entries: &mut [ShownEntry], room: &mut Text) {
    if entries.len() > 0 {
        let entry = &mut entries[0];
        take_text(&mut entry.value, room);
    }
}

/// Takes a text away, and leaves what was there.
fn take_text(value: &mut ShownValue, room: &mut Text) {
    if let ShownValue::Plain(value) = value {
        if let Variant::Text(text) = value {
            mem::swap(text, room);
        }
    }
}

impl SnapDraft {
    /// No snapshot was made. It takes no memory.
    pub fn new(alloc: Global) -> SnapDraft {
        SnapDraft {
            nodes: Vec::new(alloc),
            entries: Vec::new(alloc),
            lasts: Draft::new(alloc),
            room: Text::new(alloc),
        }
    }

    /// Becomes the snapshot that a channel takes of a moment. It takes memory where it is longer
    /// than those before, and for texts that aren't the script's.
    pub fn fill<P: Prober>(
        &mut self,
        alloc: Global,
        script: &Script,
        numbers: &Numbers,
        channel: &Channel,
        op: Option<Operation>,
        moment: &Moment<NodeId>,
        nodes: &ClosedNodes,
        prober: &P,
    ) -> Result<(), OutOfMemory>
        requires named { AreNamedInSome script.now numbers.now }
        requires places { MayHavePlaces script.now op }
        requires timed { moment.now.timed ≡ channel.now.timer }
        requires shown { ShowsSome (NodeAt nodes.now.tree.now nodes.now.seat.now) script.now
            moment.now }
        requires asked { MayAskFor (IsRead nodes.now.tree.now nodes.now.seat.now
            nodes.now.closed.now) script.now moment.now op }
        ensures { OnOk result ((attributes : List attributes_of.Attribute) (s : Sight)
            → AreNamed attributes script.now numbers.now
            → Shows (NodeAt nodes.now.tree.now nodes.now.seat.now) script.now moment.now s
            → Means attributes script.now nodes.now.tree.now nodes.now.seat.now
            self.new.nodes.items (map (numbered_entry script.now.values) self.new.entries.items)
            (snapshot_of script.now s channel.now op)) }
    {
        keep_text(&mut self.entries, &mut self.room);
        self.entries.clear();
        add_immediates(
            alloc, script, numbers, channel, op, moment, nodes, prober, self,
        )?;
        self.nodes.clear();
        moment.board.has_few_slots();
        moment.process.has_few_slots();
        moment.board.refs(&mut self.nodes)?;
        moment.process.refs(&mut self.nodes)?;
        Ok(())
    }

    /// Writes the snapshot as a table takes it, in the place of another one: its nodes, which move
    /// there, and copies of those of its entries that the table looks at. It takes memory where
    /// there were fewer, and for their texts.
    pub fn number(
        &mut self,
        alloc: Global,
        script: &Script,
        table: &Table,
        snap: &mut NumberedSnap,
    ) -> Result<(), OutOfMemory>
        ensures refs { OnOk result (snap.new.refs.items ≡ self.old.nodes.items) }
        ensures imms { OnOk result (snap.new.imms.items ≡ filter (is_looked_at table.now.shape)
            (map (numbered_entry script.now.values) self.old.entries.items)) }
    {
        mem::swap(&mut snap.refs, &mut self.nodes);
        snap.imms.clear();
        number_entries(alloc, script, table, &self.entries, &mut snap.imms)?;
        Ok(())
    }
}

/// Adds those of some entries that a table looks at, as it takes them.
fn number_entries(
    alloc: Global,
    script: &Script,
    table: &Table,
    more: &[ShownEntry],
    imms: &mut Vec<NumberedEntry>,
) -> Result<(), OutOfMemory>
    ensures { OnOk result (imms.new.items ≡ imms.old.items
        ++ filter (is_looked_at table.now.shape) (map (numbered_entry script.now.values) more.now)) }
{
    for entry in more {
        number_entry(alloc, script, table, entry, imms)?;
    }
    Ok(())
}

/// Adds an entry as a table takes it, if the table looks at it.
#[inline(always)]
fn number_entry(
    alloc: Global,
    script: &Script,
    table: &Table,
    entry: &ShownEntry,
    imms: &mut Vec<NumberedEntry>,
) -> Result<(), OutOfMemory>
    ensures { OnOk result (imms.new.items ≡ imms.old.items
        ++ filter (is_looked_at table.now.shape)
        (numbered_entry script.now.values entry.now ∷ [])) }
{
    if table.looks_at(entry.attribute.0) {
        let numbered = entry.numbered(alloc, script)?;
        imms.push(numbered)?;
        Ok(())
    } else {
        Ok(())
    }
}
