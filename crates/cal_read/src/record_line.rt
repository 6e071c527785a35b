ghost use Rattle.std.specs.Prelude.{◌≡◌, ◌<◌, List, [], length, map};
ghost use Rattle.std.specs.List.{All, zip};
ghost use Rattle.cal_context.specs.Snapshots.{IsIn, meaning, entry_of as imm_entry};
ghost use Rattle.cal_context.specs.Tree.{Tree, attribute_at};
ghost use Rattle.cal_read.specs.Columns.{AreEnds, AreFound, AreNumbers};
ghost use Rattle.cal_read.specs.Fields.{each, id_of, or_fault};
ghost use Rattle.cal_value.specs.Reading.{value_of};
ghost use Rattle.cal_read.specs.Held.{AreHeld, HoldsSome};
ghost use Rattle.cal_read.specs.Keys.{values_in};
ghost use Rattle.cal_read.specs.NodeLines.{as_attribute, known};
ghost use Rattle.cal_read.specs.Nodes.{Named, Node};
ghost use Rattle.cal_read.specs.RecordLines.{entry_of, record_of, record_of_ids};
ghost use Rattle.cal_read.specs.Steps.{Answers, AnswersFor};

use crate::StreamKind;
use crate::end::LineEnd;
use crate::ids::read_id;
use crate::keys::field_with_key;
use crate::lately::Lately;
use crate::nodes::Nodes;
use cal_context::{AttributeNumber, Context, Immediate, NodeNumber, Snapshot};
use cal_line::{FieldPieces, Fields, Piece};
use cal_value::{Text, ValueFault, Variant, parse_value};
use std::alloc::Global;

/// Lists that serve for line after line: the ids of a record's nodes, those of its attributes, what
/// is known of these, texts whose memory serves again, and what rows had in `attr` lately.
#[derive(Drop)]
pub(crate) struct Columns {
    pub(crate) refs: Vec<u64>,
    pub(crate) ids: Vec<u64>,
    pub(crate) found: Vec<Option<AttributeNumber>>,
    pub(crate) numbers: Vec<AttributeNumber>,
    pub(crate) spare: Vec<Text>,
    pub(crate) lately: Lately,
}

impl Columns {
    /// It takes no memory.
    pub(crate) fn new(alloc: Global) -> Columns {
        Columns {
            refs: Vec::new(alloc),
            ids: Vec::new(alloc),
            found: Vec::new(alloc),
            numbers: Vec::new(alloc),
            spare: Vec::new(alloc),
            lately: Lately::new(alloc),
        }
    }
}

/// Reads a `ctx` or `globals` line into a snapshot, in place of what was there.
pub(crate) fn read_record(
    alloc: Global,
    nodes: &Nodes,
    columns: &mut Columns,
    fields: &Fields,
    context: &Context,
    snapshot: &mut Snapshot,
) -> Result<(), LineEnd>
    requires { HoldsSome context.now nodes.now }
    ensures { (named : List Named) → AreHeld context.now nodes.now named
        → AnswersFor (λ _ r. IsIn context.now snapshot.new × (meaning context.now snapshot.new ≡ r))
        result (record_of named fields.now) }
{
    let refs = field_with_key(alloc, fields, "ref")?;
    let attributes = field_with_key(alloc, fields, "attr")?;
    let texts = field_with_key(alloc, fields, "data")?;
    if count_of(&attributes) != count_of(&texts) {
        return Err(LineEnd::Bad(StreamKind::Uneven));
    }
    read_ids(alloc, &refs, &mut columns.refs)?;
    read_ids(alloc, &attributes, &mut columns.ids)?;
    fill(alloc, nodes, columns, &texts, context, snapshot)
}

/// How many values a field has, if there is one.
fn count_of(field: &Option<FieldPieces>) -> usize
    ensures { result ≡ length (values_in field.now) }
{
    match field {
        Some(field) => field.value_count(),
        None => 0,
    }
}

/// The ids that the values of a field are, in place of those that were there.
fn read_ids(alloc: Global, field: &Option<FieldPieces>, ids: &mut Vec<u64>) -> Result<(), LineEnd>
    ensures { AnswersFor (λ _ found. ids.new.items ≡ found) result
        (each id_of (values_in field.now)) }
{
    ids.clear();
    match field {
        Some(field) => push_ids(alloc, field, ids),
        None => Ok(()),
    }
}

fn push_ids(alloc: Global, field: &FieldPieces, ids: &mut Vec<u64>) -> Result<(), LineEnd>
    requires { ids.old.items ≡ [] }
    ensures { AnswersFor (λ _ found. ids.new.items ≡ found) result (each id_of field.now.values) }
{
    for place in 0..field.value_count() {
        match read_id(alloc, &field.value(place)) {
            Ok(id) => ids.push(id)?,
            Err(end) => return Err(end),
        };
    }
    Ok(())
}

/// Fills a snapshot with the record of the ids and of the texts.
fn fill(
    alloc: Global,
    nodes: &Nodes,
    columns: &mut Columns,
    texts: &Option<FieldPieces>,
    context: &Context,
    snapshot: &mut Snapshot,
) -> Result<(), LineEnd>
    requires even { length columns.old.ids.items ≡ length (values_in texts.now) }
    requires held { HoldsSome context.now nodes.now }
    ensures { (named : List Named) → AreHeld context.now nodes.now named
        → AnswersFor (λ _ r. IsIn context.now snapshot.new × (meaning context.now snapshot.new ≡ r))
        result (record_of_ids named columns.old.refs.items columns.old.ids.items
        (values_in texts.now)) }
{
    snapshot.clear();
    columns.found.clear();
    columns.numbers.clear();
    push_nodes(nodes, &columns.refs, &mut snapshot.nodes)?;
    push_found(nodes, &columns.ids, &mut columns.found)?;
    push_numbers(&columns.found, &mut columns.numbers)?;
    match texts {
        Some(texts) => push_imms(alloc, context, &columns.numbers, texts, &mut snapshot.imms),
        None => Ok(()),
    }
}

/// Pushes the nodes of ids.
fn push_nodes(nodes: &Nodes, ids: &[u64], ends: &mut Vec<NodeNumber>) -> Result<(), LineEnd>
    requires { ends.old.items ≡ [] }
    ensures { (t : Tree) (named : List Named) → AreHeld t nodes.now named
        → AnswersFor (λ _. AreEnds t ends.new.items) result (each (known named) ids.now) }
{
    for id in ids {
        let Some(held) = nodes.get(*id) else {
            return Err(LineEnd::Bad(StreamKind::UnknownNode));
        };
        ends.push(held.place.node)?;
    }
    Ok(())
}

/// Pushes what is known of the attributes that the nodes of ids are.
fn push_found(
    nodes: &Nodes,
    ids: &[u64],
    found: &mut Vec<Option<AttributeNumber>>,
) -> Result<(), LineEnd>
    requires { found.old.items ≡ [] }
    ensures { (t : Tree) (named : List Named) → AreHeld t nodes.now named
        → AnswersFor (λ _. AreFound t found.new.items) result (each (known named) ids.now) }
{
    for id in ids {
        let Some(held) = nodes.get(*id) else {
            return Err(LineEnd::Bad(StreamKind::UnknownNode));
        };
        found.push(held.number)?;
    }
    Ok(())
}

/// Pushes the attributes that nodes are, where each is one.
fn push_numbers(
    found: &[Option<AttributeNumber>],
    numbers: &mut Vec<AttributeNumber>,
) -> Result<(), LineEnd>
    requires { numbers.old.items ≡ [] }
    ensures { (t : Tree) (nodes : List Node) → AreFound t found.now nodes
        → AnswersFor (λ _. AreNumbers t numbers.new.items) result (each as_attribute nodes) }
{
    for number in found {
        let Some(number) = *number else {
            return Err(LineEnd::Bad(StreamKind::NotAttribute));
        };
        numbers.push(number)?;
    }
    Ok(())
}

/// Pushes the immediates that pair attributes with the values of a field.
fn push_imms(
    alloc: Global,
    context: &Context,
    numbers: &[AttributeNumber],
    texts: &FieldPieces,
    imms: &mut Vec<Immediate>,
) -> Result<(), LineEnd>
    requires known { All (λ n. n.0 < length context.now.attributes) numbers.now }
    requires even { length numbers.now ≡ length texts.now.values }
    requires none { imms.old.items ≡ [] }
    ensures known { All (λ i. i.attribute.0 < length context.now.attributes) imms.new.items }
    ensures read { AnswersFor (λ _ entries. map (imm_entry context.now) imms.new.items ≡ entries)
        result (each entry_of (zip (map (attribute_at context.now) numbers.now) texts.now.values)) }
{
    for place in 0..texts.value_count() {
        let attribute = numbers[place];
        match value_of(alloc, context, attribute, &texts.value(place)) {
            Ok(value) => imms.push(Immediate { attribute, value })?,
            Err(end) => return Err(end),
        };
    }
    Ok(())
}

/// The value of an attribute's kind that a piece has.
fn value_of(
    alloc: Global,
    context: &Context,
    number: AttributeNumber,
    piece: &Piece,
) -> Result<Variant, LineEnd>
    requires { number.0 < length context.now.attributes }
    ensures { Answers result
        (or_fault StreamKind.BadValue (value_of (attribute_at context.now number).kind piece.now)) }
{
    let text = piece.text(alloc)?;
    match parse_value(alloc, context.attribute_at(number).kind, text.as_str()) {
        Ok(value) => Ok(value),
        Err(ValueFault::BadValue) => Err(LineEnd::Bad(StreamKind::BadValue)),
        Err(ValueFault::OutOfMemory) => Err(LineEnd::OutOfMemory),
    }
}
