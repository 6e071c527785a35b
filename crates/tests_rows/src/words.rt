//! Words of nodes and of operations, by worked rows.

use crate::held::{all_hold, is_true};
use cal_value::{Kind, OutOfMemory, Text, Variant};
use cal_words::{
    NodeId, NodeRec, NodeSort, OpCode, OpRec, OpSort, Packed, equal_nodes, equal_ops, know_node,
};
use std::alloc::Global;
use std::process::Abort;

// the node of attribute 9 at depth 2 below node 3
fn node(value: &Variant) -> NodeRec<'_> {
    NodeRec {
        parent: NodeId(3),
        depth: 2,
        attr: 9,
        value,
    }
}

// Whether the words behind the attribute's are these.
fn is_packed(value: &Variant, words: &[u64]) -> bool {
    let node = node(value);
    for i in 0..node.len() {
        let wanted = match i {
            0 => 3,
            1 => 2,
            2 => 9,
            _ => words.get(i as usize - 3).copied().unwrap_or(0),
        };
        if node.word(i) != wanted || !node.matches(i, wanted) {
            return false;
        }
    }
    node.len() == words.len() as u64 + 3
}

fn check_node(rt: &impl Abort, value: &Variant, words: &[u64]) {
    assert!(rt; is_packed(value, words), "{value:?}");
}

#[test]
fn numbers_are_packed(rt: HostRuntime) {
    let most = i64::MAX as u64;
    let billion = 1_000_000_000;
    check_node(&rt, &Variant::Int(-1), &[1 << 32, u64::MAX, u64::MAX]);
    check_node(&rt, &Variant::Int(i128::MAX), &[1 << 32, u64::MAX, most]);
    check_node(&rt, &Variant::Uint(7), &[2 << 32, 7]);
    check_node(&rt, &Variant::Fixed(billion), &[5 << 32, 1_000_000_000, 0]);
    check_node(&rt, &Variant::Fixed(-2), &[5 << 32, u64::MAX - 1, u64::MAX]);
    check_node(&rt, &Variant::Fixed(i128::MIN), &[5 << 32, 0, most + 1]);
}

#[test]
fn truths_addresses_and_kinds_are_packed(rt: HostRuntime) {
    check_node(&rt, &Variant::Bool(true), &[6 << 32, 1]);
    check_node(&rt, &Variant::Bool(false), &[6 << 32, 0]);
    check_node(&rt, &Variant::Addr(255), &[4 << 32, 255]);
    check_node(&rt, &Variant::Kind(Kind::Ptr), &[7 << 32, 11]);
}

// The kind of a value, its text, and its words behind the attribute's.
const TEXTS: [(Kind, &str, &[u64]); 6] = [
    (Kind::Str, "", &[3 << 32]),
    (Kind::Str, "ab", &[(3 << 32) + 2, 0x6261]),
    (Kind::Double, "", &[5 << 32]),
    (
        Kind::Double,
        "123456789",
        &[(5 << 32) + 9, 0x3837363534333231, 0x39],
    ),
    (Kind::Usr, "x", &[1, 0x78]),
    (Kind::Ptr, "x", &[(11 << 32) + 1, 0x78]),
];

fn texts() -> &'static [(Kind, &'static str, &'static [u64])] {
    &TEXTS
}

// The value of this kind with this text.
fn value(kind: Kind, text: Text) -> Variant {
    match kind {
        Kind::Double => Variant::Real(text),
        Kind::Usr => Variant::Usr(text),
        Kind::Ptr => Variant::Ptr(text),
        _ => Variant::Text(text),
    }
}

fn is_text_packed(
    alloc: Global,
    kind: Kind,
    text: &str,
    words: &[u64],
) -> Result<bool, OutOfMemory> {
    let value = value(kind, Text::from_str(alloc, text)?);
    let packed = is_packed(&value, words);
    drop(value);
    Ok(packed)
}

fn wrong_text(alloc: Global) -> Result<Option<usize>, OutOfMemory> {
    let rows = texts();
    for row in 0..rows.len() {
        let (kind, text, words) = rows[row];
        if !is_text_packed(alloc, kind, text, words)? {
            return Ok(Some(row));
        }
    }
    Ok(None)
}

#[test]
fn texts_are_packed(rt: HostRuntime) {
    all_hold(&rt, wrong_text(rt.alloc()));
}

// Whether the node of a text begins its search at this of a thousand homes.
fn is_home(alloc: Global, text: &str, home: u64) -> Result<bool, OutOfMemory> {
    let value = Variant::Text(Text::from_str(alloc, text)?);
    let found = Packed::<NodeSort>::home(&node(&value), 1000);
    drop(value);
    Ok(found == home)
}

#[test]
fn a_node_has_its_home(rt: HostRuntime) {
    is_true(&rt, is_home(rt.alloc(), "ab", 598));
    equal_nodes();
    know_node(&NodeRec {
        parent: NodeId(0),
        depth: 1,
        attr: 0,
        value: &Variant::Fixed(7),
    });
}

// Whether the words of an operation are these.
fn is_op_packed(op: &OpRec, words: &[u64]) -> bool {
    for i in 0..Packed::<OpSort>::len(op) {
        let wanted = words.get(i as usize).copied().unwrap_or(0);
        if Packed::<OpSort>::word(op, i) != wanted || !Packed::<OpSort>::matches(op, i, wanted) {
            return false;
        }
    }
    Packed::<OpSort>::len(op) == words.len() as u64
}

#[test]
fn an_operation_is_packed(rt: HostRuntime) {
    let op = OpRec {
        thread: 1,
        line: 5,
        code: OpCode::Set,
        attr: 4,
        value: 8,
    };
    assert!(rt; is_op_packed(&op, &[0, 1, 1, 5, 2, 4, 8]));
    equal_ops();
}
