//! The reading, printing, comparing and hashing of values of each kind.
ghost use Rattle.std.specs.Prelude.{◌≡◌, ◌≤◌};

use anyhow::Result;
use cal_value::{Kind, Text, ValueFault, Variant, parse_value, print_value};
use std::alloc::Global;
use std::hash::{FoldHasher, Hash, Hasher};
use std::rt::Clock;
use std::time::Instant;

const ROUNDS: u64 = 1_000_000;

/// The name of a kind, and two values of it.
type Sample = (&'static str, &'static str, &'static str);

const SAMPLES: [Sample; 10] = [
    ("int", "-1234567", "1234568"),
    ("uint", "18446744073709551615", "42"),
    ("string", "main.cpp", "main.c"),
    ("addr", "0x7fff5fbff8a0", "7FFF5FBFF8A1"),
    ("double", "3.14159265", "2.71828"),
    ("bool", "true", "0"),
    ("type", "double", "string"),
    ("usr", "0x01", "0x02"),
    ("ptr", "0xdeadbeef", "0xdeadbeee"),
    (
        "int",
        "77371252455336267181195264",
        "-77371252455336267181195264",
    ),
];

fn samples() -> &'static [Sample] {
    &SAMPLES
}

/// Times the reading, printing, comparing and hashing of a million values of each kind.
pub fn measure(rt: &(impl Clock + Print + AllocGlobal)) -> Result<()> {
    println!(rt;
        "bytes: Variant {}, Attribute {}, Entry {}",
        size_of::<Variant>(),
        size_of::<cal_value::Attribute>(),
        size_of::<cal_value::Entry>()
    )?;
    for sample in samples() {
        time_kind(rt, rt.alloc(), *sample)?;
    }
    Ok(())
}

fn parse_all(alloc: Global, kind: Kind, one: &str, other: &str) -> u64 {
    let mut below = 0u64;
    for round in 0..ROUNDS {
        let text = if round % 2 == 0 { one } else { other };
        if let Ok(value) = parse_value(alloc, kind, text) {
            below = below.wrapping_add(u64::from(value < Variant::Kind(Kind::Usr)));
        }
    }
    below
}

fn print_all(alloc: Global, one: &Variant, other: &Variant) -> Result<usize> {
    let mut out = Text::new(alloc);
    for round in 0..ROUNDS {
        print_value(if round % 2 == 0 { one } else { other }, &mut out)?;
    }
    Ok(out.len())
}

fn compare_all(one: &Variant, other: &Variant) -> u64 {
    let mut below = 0u64;
    for round in 0..ROUNDS {
        let (left, right) = if round % 2 == 0 {
            (one, other)
        } else {
            (other, one)
        };
        below = below.wrapping_add(u64::from(left.cmp(right).is_lt()));
    }
    below
}

/// How often a value is equal, compared with itself and the other in turn.
fn equal_all(one: &Variant, other: &Variant) -> u64
    ensures all { one.now ≡ other.now → result ≡ ROUNDS }
    ensures most { result ≤ ROUNDS }
{
    let mut same = 0u64;
    for round in 0..ROUNDS {
        let right = if round % 2 == 0 { one } else { other };
        same += u64::from(*one == *right);
    }
    same
}

fn hash_all(one: &Variant, other: &Variant) -> u64 {
    let mut sum = 0u64;
    for round in 0..ROUNDS {
        let mut hasher = FoldHasher::default();
        let value = if round % 2 == 0 { one } else { other };
        value.hash(&mut hasher);
        sum = sum.wrapping_add(hasher.finish());
    }
    sum
}

fn report(rt: &(impl Clock + Print), what: &str, from: Instant, check: u64) -> Result<Instant> {
    let nanos = from.elapsed(rt)?.as_nanos() / u128::from(ROUNDS);
    println!(rt; "  {what}: {nanos} ns a value (check {check})")?;
    Ok(Instant::now(rt)?)
}

fn time_kind(rt: &(impl Clock + Print), alloc: Global, sample: Sample) -> Result<()> {
    let (name, one, other) = sample;
    let kind = Kind::from_name(name).unwrap_or(Kind::Usr);
    println!(rt; "{name}, {one} and {other}")?;
    let parsed = time_parsing(rt, alloc, kind, one, other)?;
    let (one, other) = both(alloc, kind, one, other)?;
    let timed = time_values(rt, alloc, &one, &other, parsed);
    drop(other);
    drop(one);
    timed
}

fn time_parsing(
    rt: &(impl Clock + Print),
    alloc: Global,
    kind: Kind,
    one: &str,
    other: &str,
) -> Result<Instant> {
    let started = Instant::now(rt)?;
    let below = parse_all(alloc, kind, one, other);
    report(rt, "parse", started, below)
}

fn both(
    alloc: Global,
    kind: Kind,
    one: &str,
    other: &str,
) -> Result<(Variant, Variant), ValueFault> {
    let one = parse_value(alloc, kind, one)?;
    let other = parse_value(alloc, kind, other)?;
    Ok((one, other))
}

fn time_values(
    rt: &(impl Clock + Print),
    alloc: Global,
    one: &Variant,
    other: &Variant,
    from: Instant,
) -> Result<()> {
    let length = print_all(alloc, one, other)?;
    let printed = report(rt, "print", from, length as u64)?;
    let compared = report(rt, "compare", printed, compare_all(one, other))?;
    let equated = report(rt, "equal", compared, equal_all(one, other))?;
    report(rt, "hash", equated, hash_all(one, other))?;
    Ok(())
}
