ghost use Rattle.std.specs.Prelude.{◌≡◌, ◌<◌, ◌^◌, ◌+◌, ◌*◌, length, slice_index, IfOk, IsUtf8};
ghost use Rattle.cal_words.specs.Back.{kind_from, number_of, text_of, value_of};
ghost use Rattle.cal_words.specs.Records.{IsNode, IsValue};
ghost use Rattle.cal_words.specs.Words.{node_words};

use crate::NodeId;
use cal_value::{Kind, OutOfMemory, Text, Variant};
use std::alloc::Global;

/// A node with a value of its own, as its words give it back. The kind is the value's.
#[derive(Debug, Drop)]
pub struct Node {
    pub parent: NodeId,
    pub depth: u32,
    pub attr: u32,
    pub value: Variant,
}

/// The node whose words these are. It takes time and memory in their number.
pub fn read_node(alloc: Global, words: &[u64]) -> Result<Node, OutOfMemory>
    requires { IsNode words.now }
    ensures words { IfOk result (λ node.
        words.now ≡ node_words node.parent.0 node.depth node.attr node.value) }
    ensures value { IfOk result (λ node. IsValue node.value) }
{
    let shape = words[3];
    let value = read_value(alloc, shape / (1 << 32), shape % (1 << 32), &words[4..])?;
    Ok(Node {
        parent: NodeId(words[0] as u32),
        depth: words[1] as u32,
        attr: words[2] as u32,
        value,
    })
}

// The value of this kind, with so many bytes of text, and of these words.
fn read_value(alloc: Global, kind: u64, count: u64, words: &[u64]) -> Result<Variant, OutOfMemory>
    requires { IsUtf8 (text_of count words.now) }
    ensures { IfOk result (λ value. value ≡ value_of kind count words.now) }
{
    Ok(match kind {
        1 => Variant::Int(read_number(words)),
        2 => Variant::Uint(word_or_zero(words, 0)),
        3 => Variant::Text(read_text(alloc, count, words)?),
        4 => Variant::Addr(word_or_zero(words, 0)),
        5 if count == 0 && !words.is_empty() => Variant::Fixed(read_number(words)),
        5 => Variant::Real(read_text(alloc, count, words)?),
        6 => Variant::Bool(word_or_zero(words, 0) == 1),
        7 => Variant::Kind(read_kind(word_or_zero(words, 0))),
        11 => Variant::Ptr(read_text(alloc, count, words)?),
        _ => Variant::Usr(read_text(alloc, count, words)?),
    })
}

fn word_or_zero(words: &[u64], place: usize) -> u64
    ensures { result ≡ slice_index words.now place }
{
    words.get(place).copied().unwrap_or(0)
}

fn read_number(words: &[u64]) -> i128
    ensures { result ≡ number_of words.now }
{
    let low = u128::from(word_or_zero(words, 0));
    let high = u128::from(word_or_zero(words, 1));
    (high * (1 << 64) + low).cast_signed()
}

fn read_text(alloc: Global, count: u64, words: &[u64]) -> Result<Text, OutOfMemory>
    requires { IsUtf8 (text_of count words.now) }
    ensures { IfOk result (λ text. text ≡ text_of count words.now) }
{
    let bytes = read_bytes(alloc, count, words)?;
    Ok(Text::from_string(String::from_utf8(bytes).unwrap()))
}

fn read_bytes(alloc: Global, count: u64, words: &[u64]) -> Result<Vec<u8>, OutOfMemory>
    ensures { IfOk result (λ bytes. bytes.items ≡ text_of count words.now) }
{
    let count = count as usize;
    let mut bytes = Vec::with_capacity(alloc, count)?;
    for k in 0..count {
        bytes.push(word_or_zero(words, k / 8).to_le_bytes()[k % 8])?;
    }
    Ok(bytes)
}

fn read_kind(node: u64) -> Kind
    ensures { result ≡ kind_from node }
{
    match node {
        1 => Kind::Int,
        2 => Kind::Uint,
        3 => Kind::Str,
        4 => Kind::Addr,
        5 => Kind::Double,
        6 => Kind::Bool,
        7 => Kind::TypeName,
        11 => Kind::Ptr,
        _ => Kind::Usr,
    }
}
