ghost use Rattle.std.specs.Prelude.{◌<◌, length, IfOk, OnOk};
ghost use Rattle.cal_context.specs.Snapshots.{IsIn};

use cal_context::{
    Context, Immediate, Interner, Link, NodeNumber, Snapshot, Taken, Taker, ValueNumber, expand,
    growth_is_an_order, numbers_stay,
};
use cal_seeds::Seeds;
use cal_value::{Attribute, Entry, Kind, OutOfMemory, Props, Rec, Seq, Text, Variant};
use std::alloc::Global;
use std::process::Abort;

// Functions on the way from the root down, and the node's number, in the order in which they are
// interned.
const NODES: [(&[&str], u32); 8] = [
    (&[], 0),
    (&["main"], 1),
    (&["main", "solve"], 2),
    (&["main"], 1),
    (&["solve"], 3),
    (&["main", "solve", "solve"], 4),
    (&["main", "solve"], 2),
    (&["solve", "main"], 5),
];

fn nodes() -> &'static [(&'static [&'static str], u32)] {
    &NODES
}

// Each node below the root, its parent and its function.
const LINKS: [(u32, u32, &str); 5] = [
    (1, 0, "main"),
    (2, 1, "solve"),
    (3, 0, "solve"),
    (4, 2, "solve"),
    (5, 3, "main"),
];

fn links() -> &'static [(u32, u32, &'static str)] {
    &LINKS
}

fn attribute(alloc: Global, name: &str, kind: Kind) -> Result<Attribute, OutOfMemory> {
    Ok(Attribute {
        name: Text::from_str(alloc, name)?,
        kind,
        props: Props(0),
    })
}

fn text(alloc: Global, text: &str) -> Result<Variant, OutOfMemory> {
    Ok(Variant::Text(Text::from_str(alloc, text)?))
}

/// The node of functions on the way from the root down.
fn node(alloc: Global, context: &mut Context, path: &[&str]) -> Result<NodeNumber, OutOfMemory>
    ensures { IfOk result (λ n. n.0 < length context.new.paths) }
{
    context.has_each_once();
    let function = context.attribute(&attribute(alloc, "function", Kind::Str)?)?;
    let mut node = NodeNumber::ROOT;
    for name in path {
        node = context.child(node, function, &text(alloc, name)?)?;
    }
    Ok(node)
}

/// The first row whose functions are another node than its number says.
fn wrong_node(alloc: Global, context: &mut Context) -> Result<Option<usize>, OutOfMemory> {
    let rows = nodes();
    for row in 0..rows.len() {
        if node(alloc, context, rows[row].0)?.0 != rows[row].1 {
            return Ok(Some(row));
        }
    }
    Ok(None)
}

/// No row of a table is wrong, and the memory was enough.
fn all_hold(rt: &impl Abort, wrong: Result<Option<usize>, OutOfMemory>) {
    assert_eq!(rt; wrong, Ok(None), "the first wrong row");
}

fn is_count(rt: &impl Abort, count: usize, wanted: usize) {
    assert_eq!(rt; count, wanted);
}

#[test]
fn equal_paths_are_one_node(rt: HostRuntime) {
    let mut context = Context::new(rt.alloc());
    all_hold(&rt, wrong_node(rt.alloc(), &mut context));
    is_count(&rt, context.node_count(), 6);
    is_count(&rt, context.attribute_count(), 1);
    is_count(&rt, context.value_count(), 2);
    drop(context);
}

/// Whether a node hangs from its parent by its function.
fn hangs(context: &Context, node: u32, parent: u32, name: &str) -> bool {
    let Some(link) = link(context, NodeNumber(node)) else {
        return false;
    };
    let Some(Variant::Text(text)) = value(context, link.value) else {
        return false;
    };
    link.parent == NodeNumber(parent) && text.as_str() == name
}

fn wrong_link(context: &Context) -> Option<usize> {
    let rows = links();
    for row in 0..rows.len() {
        if !hangs(context, rows[row].0, rows[row].1, rows[row].2) {
            return Some(row);
        }
    }
    None
}

#[test]
fn nodes_hang_by_links(rt: HostRuntime) {
    let mut context = Context::new(rt.alloc());
    all_hold(&rt, wrong_node(rt.alloc(), &mut context));
    all_hold(&rt, Ok(wrong_link(&context)));
    assert!(rt; link(&context, NodeNumber::ROOT).is_none());
    drop(context);
}

/// The first row whose node isn't found by its own link.
fn wrong_find(context: &mut Context) -> Result<Option<usize>, OutOfMemory> {
    let rows = links();
    for row in 0..rows.len() {
        let node = NodeNumber(rows[row].0);
        if found(context, node)? != Some(node) {
            return Ok(Some(row));
        }
    }
    Ok(None)
}

#[test]
fn a_link_finds_its_node(rt: HostRuntime) {
    let mut context = Context::new(rt.alloc());
    all_hold(&rt, wrong_node(rt.alloc(), &mut context));
    all_hold(&rt, wrong_find(&mut context));
    is_count(&rt, context.node_count(), 6);
    drop(context);
}

/// Seeds of a run.
fn seeds() -> Seeds {
    Seeds {
        start: 5,
        factor: 7,
    }
}

#[test]
fn other_seeds_give_the_same_nodes(rt: HostRuntime) {
    let mut context = Context::seeded(rt.alloc(), seeds());
    all_hold(&rt, wrong_node(rt.alloc(), &mut context));
    all_hold(&rt, Ok(wrong_link(&context)));
    all_hold(&rt, wrong_find(&mut context));
    is_count(&rt, context.node_count(), 6);
    is_count(&rt, context.value_count(), 2);
    drop(context);
}

/// The link of a node, if there is such a node.
fn link(context: &Context, node: NodeNumber) -> Option<Link> {
    if node.0 as usize >= context.node_count() {
        return None;
    }
    context.link(node)
}

/// The value of a number, if there is one.
fn value(context: &Context, number: ValueNumber) -> Option<&Variant> {
    if number.0 as usize >= context.value_count() {
        return None;
    }
    Some(context.value_at(number))
}

/// The node that is found by the link of a node.
fn found(context: &mut Context, node: NodeNumber) -> Result<Option<NodeNumber>, OutOfMemory> {
    if node.0 as usize >= context.node_count() {
        return Ok(None);
    }
    let Some(link) = context.link(node) else {
        return Ok(None);
    };
    Ok(Some(context.child_by_number(link)?))
}

// Records by numbers over the nodes of the table, each the nodes' numbers and the immediate's
// value, and the same records by their paths.
const RECORDS: [(&[u32], i128, &[&[&str]]); 3] = [
    (&[2], 7, &[&["main", "solve"]]),
    (&[4, 3], -1, &[&["main", "solve", "solve"], &["solve"]]),
    (&[], 0, &[]),
];

fn records() -> &'static [(&'static [u32], i128, &'static [&'static [&'static str]])] {
    &RECORDS
}

/// Whether the snapshot of a row means the row's record.
fn means(
    alloc: Global,
    context: &mut Context,
    snapshot: &mut Snapshot,
    row: usize,
) -> Result<bool, OutOfMemory> {
    let Some((nodes, number, paths)) = records().get(row) else {
        return Ok(false);
    };
    fill(alloc, context, snapshot, nodes, *number)?;
    let expected = record(alloc, paths, *number)?;
    Ok(expand(alloc, context, snapshot)? == expected)
}

/// The first row whose snapshot doesn't mean its record.
fn wrong_record(
    alloc: Global,
    context: &mut Context,
    snapshot: &mut Snapshot,
) -> Result<Option<usize>, OutOfMemory> {
    for row in 0..records().len() {
        if !means(alloc, context, snapshot, row)? {
            return Ok(Some(row));
        }
    }
    Ok(None)
}

#[test]
fn a_snapshot_means_its_record(rt: HostRuntime) {
    let mut context = Context::new(rt.alloc());
    all_hold(&rt, wrong_node(rt.alloc(), &mut context));
    let mut snapshot = Snapshot::new(rt.alloc());
    all_hold(&rt, wrong_record(rt.alloc(), &mut context, &mut snapshot));
    drop(snapshot);
    drop(context);
}

/// Passes the snapshot of each row to a taker.
fn pass_all(
    alloc: Global,
    context: &mut Context,
    snapshot: &mut Snapshot,
    taken: &mut Taken,
) -> Result<(), OutOfMemory> {
    for (nodes, number, _) in records() {
        fill(alloc, context, snapshot, nodes, *number)?;
        pass(context, snapshot, taken)?;
    }
    Ok(())
}

/// The records of the table.
fn wanted(alloc: Global) -> Result<Seq<Rec>, OutOfMemory> {
    let mut all = Seq::new(alloc);
    for (_, number, paths) in records() {
        all.push(record(alloc, paths, *number)?)?;
    }
    Ok(all)
}

/// Whether what was taken is the records of the table.
fn is_wanted(alloc: Global, taken: Taken) -> Result<bool, OutOfMemory> {
    let rows = taken.into_rows();
    Ok(rows == wanted(alloc)?)
}

#[test]
fn plain_records_take_each_snapshot(rt: HostRuntime) {
    let mut context = Context::new(rt.alloc());
    all_hold(&rt, wrong_node(rt.alloc(), &mut context));
    let mut snapshot = Snapshot::new(rt.alloc());
    let mut taken = Taken::new(rt.alloc());
    let passed = pass_all(rt.alloc(), &mut context, &mut snapshot, &mut taken);
    drop(snapshot);
    drop(context);
    assert!(rt; passed.is_ok());
    assert_eq!(rt; is_wanted(rt.alloc(), taken), Ok(true));
}

const WORDS: [(&str, u32); 5] = [("b", 0), ("a", 1), ("b", 0), ("c", 2), ("a", 1)];

fn words() -> &'static [(&'static str, u32)] {
    &WORDS
}

/// Whether a word has this number, lent and given.
fn has_number(
    alloc: Global,
    words: &mut Interner<Text>,
    word: &str,
    number: u32,
) -> Result<bool, OutOfMemory> {
    let word = Text::from_str(alloc, word)?;
    let lent = words.intern_copy(&word)?;
    let given = words.intern(word)?;
    Ok(lent == number && given == number)
}

/// The first row whose word has another number.
fn wrong_word(alloc: Global, interner: &mut Interner<Text>) -> Result<Option<usize>, OutOfMemory> {
    let rows = words();
    for row in 0..rows.len() {
        if !has_number(alloc, interner, rows[row].0, rows[row].1)? {
            return Ok(Some(row));
        }
    }
    Ok(None)
}

#[test]
fn an_interner_numbers_each_item_once(rt: HostRuntime) {
    let mut words = Interner::new(rt.alloc());
    all_hold(&rt, wrong_word(rt.alloc(), &mut words));
    words.truncate(1);
    assert_eq!(rt; has_number(rt.alloc(), &mut words, "c", 1), Ok(true));
    is_count(&rt, words.as_slice().len(), 2);
    drop(words);
}

#[test]
fn other_seeds_give_the_same_numbers(rt: HostRuntime) {
    let mut words = Interner::seeded(rt.alloc(), seeds());
    all_hold(&rt, wrong_word(rt.alloc(), &mut words));
    is_count(&rt, words.as_slice().len(), 3);
    drop(words);
}

#[test]
fn the_laws_are_there(rt: HostRuntime) {
    growth_is_an_order();
    numbers_stay();
    Context::new(rt.alloc()).has_each_once();
}

/// Makes the snapshot one of these nodes, with one immediate.
fn fill(
    alloc: Global,
    context: &mut Context,
    snapshot: &mut Snapshot,
    nodes: &[u32],
    number: i128,
) -> Result<(), OutOfMemory>
    ensures { OnOk result (IsIn context.new snapshot.new) }
{
    let attribute = context.attribute(&attribute(alloc, "iteration", Kind::Int)?)?;
    snapshot.clear();
    for node in nodes {
        if *node == 0 || *node as usize >= context.node_count() {
            return Err(OutOfMemory);
        }
        snapshot.nodes.push(NodeNumber(*node))?;
    }
    snapshot.imms.push(Immediate {
        attribute,
        value: Variant::Int(number),
    })?;
    Ok(())
}

/// Passes a snapshot to a taker.
fn pass<T: Taker>(context: &Context, snapshot: &Snapshot, taker: &mut T) -> Result<(), OutOfMemory>
    requires { IsIn context.now snapshot.now }
{
    taker.take(context, snapshot)
}

/// A record of functions' paths and an iteration.
fn record(alloc: Global, paths: &[&[&str]], number: i128) -> Result<Rec, OutOfMemory> {
    let mut all = Seq::new(alloc);
    for path in paths {
        all.push(functions(alloc, path)?)?;
    }
    let mut imms = Seq::new(alloc);
    imms.push(Entry {
        attr: attribute(alloc, "iteration", Kind::Int)?,
        value: Variant::Int(number),
    })?;
    Ok(Rec { paths: all, imms })
}

fn functions(alloc: Global, names: &[&str]) -> Result<Seq<Entry>, OutOfMemory> {
    let mut path = Seq::new(alloc);
    for name in names {
        path.push(Entry {
            attr: attribute(alloc, "function", Kind::Str)?,
            value: text(alloc, name)?,
        })?;
    }
    Ok(path)
}
