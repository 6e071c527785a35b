ghost use Rattle.std.specs.Prelude.{◌^◌, ◌<◌, ◌≤◌, IfOk};
ghost use Rattle.cal_words.specs.Words.{text_length};
ghost use Rattle.cal_once.specs.Layout.{IsShape};
ghost use Rattle.cal_tree.specs.Seats.{IsKnownNode, IsTreeSeat};

use crate::held::is_true;
use cal_once::Shape;
use cal_tree::{Tree, TreeFull, TreeSeat, one_path_each, paths_for_good};
use cal_value::{OutOfMemory, Text, Variant};
use cal_words::NodeId;
use std::alloc::Global;

type Answer = Result<NodeId, TreeFull>;

// A text of at most 100 bytes.
fn short(alloc: Global, text: &str) -> Result<Variant, OutOfMemory>
    ensures { IfOk result (λ v. text_length v < 2 ^ 32) }
{
    let text = Text::from_str(alloc, text)?;
    if text.len() > 100 {
        return Ok(Variant::Bool(false));
    }
    Ok(Variant::Text(text))
}

// The answer to the child of the root with attribute 0 and this text.
fn add(alloc: Global, tree: &Tree, seat: &mut TreeSeat, text: &str) -> Result<Answer, OutOfMemory>
    requires { IsTreeSeat tree.now seat.old }
    ensures { IsTreeSeat tree.now seat.new }
{
    let value = short(alloc, text)?;
    let answer = tree.child(seat, NodeId(0), 0, &value);
    drop(value);
    Ok(answer)
}

// The answers to children with these texts, made in order.
fn add_all(
    alloc: Global,
    tree: &Tree,
    seat: &mut TreeSeat,
    texts: &[&str],
    answers: &mut Vec<Answer>,
) -> Result<(), OutOfMemory>
    requires { IsTreeSeat tree.now seat.old }
{
    for text in texts {
        answers.push(add(alloc, tree, seat, text)?)?;
    }
    Ok(())
}

fn answers(
    alloc: Global,
    shape: Shape,
    texts: &[&str],
    answers: &mut Vec<Answer>,
) -> Result<(), OutOfMemory>
    requires { IsShape shape }
{
    let (tree, mut seat) = Tree::new(alloc, shape)?;
    let added = add_all(alloc, &tree, &mut seat, texts, answers);
    drop(seat);
    drop(tree);
    added
}

// The first text has a node, found again at the end; the fourth has another, the fifth none.
fn holds_four(answers: &[Answer]) -> bool {
    let Some(Ok(one)) = answers.get(0) else {
        return false;
    };
    answers.get(3) != Some(&Ok(*one))
        && answers.get(4) == Some(&Err(TreeFull::RowsFull))
        && answers.get(5) == Some(&Ok(*one))
}

// Whether a tree of four slots, of which so many are homes, is told full.
fn is_full_at_four(alloc: Global, homes: u64) -> bool
    requires { (1 ≤ homes) × (homes ≤ 4) }
{
    let shape = Shape {
        slots: 4,
        homes,
        arena: 64,
        arenas: 1,
    };
    let mut all = Vec::new(alloc);
    let answered = answers(alloc, shape, &["a", "b", "c", "d", "e", "a"], &mut all);
    let full = holds_four(all.as_slice());
    drop(all);
    answered.is_ok() && full
}

#[test]
fn a_full_tree_is_told(rt: HostRuntime) {
    assert!(rt; is_full_at_four(rt.alloc(), 1));
    assert!(rt; is_full_at_four(rt.alloc(), 4));
}

#[test]
fn a_full_arena_of_a_tree_is_told(rt: HostRuntime) {
    let shape = Shape {
        slots: 9,
        homes: 1,
        arena: 5,
        arenas: 1,
    };
    let mut all = Vec::new(rt.alloc());
    let answered = answers(rt.alloc(), shape, &["a", "b"], &mut all);
    let wanted = [Ok(NodeId(1)), Err(TreeFull::ArenaFull { used: 5, need: 5 })];
    let told = answered.is_ok() && all.as_slice() == wanted.as_slice();
    drop(all);
    assert!(rt; told);
}

// A node so many levels below the root.
fn dig(tree: &Tree, seat: &mut TreeSeat, levels: u32) -> Result<NodeId, TreeFull>
    requires { IsTreeSeat tree.now seat.old }
    ensures seat { IsTreeSeat tree.now seat.new }
    ensures known { IfOk result (λ node. IsKnownNode tree.now seat.new node.0) }
{
    let mut node = NodeId(0);
    for level in 0..levels {
        node = tree.child(seat, node, level, &Variant::Bool(true))?;
    }
    Ok(node)
}

// Whether a node of depth 128 has no child.
fn ends_at_128(tree: &Tree, seat: &mut TreeSeat) -> bool
    requires { IsTreeSeat tree.now seat.old }
    ensures { IsTreeSeat tree.now seat.new }
{
    let Ok(deepest) = dig(tree, seat, 128) else {
        return false;
    };
    tree.child(seat, deepest, 0, &Variant::Bool(true)) == Err(TreeFull::TooDeep)
}

// Whether a tree of one path grows to 128 entries, and no further.
fn is_told_too_deep(alloc: Global) -> Result<bool, OutOfMemory> {
    let shape = Shape {
        slots: 300,
        homes: 299,
        arena: 1000,
        arenas: 1,
    };
    let (tree, mut seat) = Tree::new(alloc, shape)?;
    let ends = ends_at_128(&tree, &mut seat);
    let count = tree.count_nodes(&mut seat);
    drop(seat);
    drop(tree);
    Ok(ends && count == 128)
}

#[test]
fn a_path_has_128_entries(rt: HostRuntime) {
    is_true(&rt, is_told_too_deep(rt.alloc()));
    paths_for_good();
    one_path_each();
}
