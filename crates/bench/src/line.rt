//! The splitting of lines of a stream, beside a plain loop over their bytes.
ghost use Rattle.std.specs.Prelude.{◌≡◌, length, IfOk};

use crate::plain::{NOTHING, Tally, plain_all};
use anyhow::Result;
use cal_line::{FieldEnd, FieldPieces, Piece, Splitter};
use cal_value::OutOfMemory;
use std::alloc::Global;
use std::rt::Clock;
use std::time::Instant;

/// Lines like those of a stream; one piece in eighty has an escape.
const SAMPLES: [&str; 8] = [
    "__rec=node,id=1048571,attr=8,data=main,parent=1048570",
    "__rec=node,id=1048572,attr=8,data=compute_residual,parent=1048571",
    "__rec=ctx,ref=1048572=1048563,attr=31=32,data=17=3.25",
    "__rec=ctx,ref=1048571",
    "__rec=node,id=1048573,attr=12,data=a\\,b\\=c,parent=1048572",
    "__rec=ctx,ref=1048573=1048563=12,attr=31=32=33,data=18=1048576=0.000001",
    "__rec=node,id=1048574,attr=10,data=64,parent=3",
    "__rec=ctx,ref=1048574=1048563,attr=31=32,data=-1=77371252455336267181195264",
];

const BYTES: usize = 46_000_000;

/// Times the splitting of 46 MB of lines five times, beside a plain loop over their bytes.
pub fn measure(rt: &(impl Clock + Print + AllocGlobal)) -> Result<()> {
    let text = stream(rt.alloc())?;
    let timed = time_text(rt, rt.alloc(), text.as_str());
    drop(text);
    timed
}

fn time_text(rt: &(impl Clock + Print), alloc: Global, text: &str) -> Result<()> {
    println!(rt; "{} bytes", text.len())?;
    let lines: Vec<&str> = text.lines().collect(alloc)?;
    let timed = time_rounds(rt, alloc, lines.as_slice());
    drop(lines);
    timed
}

fn time_rounds(rt: &(impl Clock + Print), alloc: Global, lines: &[&str]) -> Result<()> {
    for _round in 0..5 {
        time_round(rt, alloc, lines)?;
    }
    Ok(())
}

fn stream(alloc: Global) -> Result<String, OutOfMemory> {
    let mut text = String::new(alloc);
    for round in 0..BYTES / 56 {
        text.push_str(SAMPLES[round % 8])?;
        text.push_str("\n")?;
    }
    Ok(text)
}

fn byte_count(alloc: Global, piece: Piece<'_>) -> Result<usize, OutOfMemory> {
    Ok(piece.text(alloc)?.len())
}

fn tally_field(alloc: Global, field: &FieldPieces, tally: &mut Tally) -> Result<(), FieldEnd>
    ensures { tally.new.lines ≡ tally.old.lines }
{
    let mut bytes = byte_count(alloc, field.key())?;
    for place in 0..field.value_count() {
        bytes = bytes.wrapping_add(byte_count(alloc, field.value(place))?);
    }
    tally.pieces = tally.pieces.wrapping_add(field.value_count());
    tally.bytes = tally.bytes.wrapping_add(bytes);
    Ok(())
}

fn tally_line(
    alloc: Global,
    splitter: &mut Splitter,
    line: &str,
    tally: &mut Tally,
) -> Result<(), FieldEnd>
    ensures { tally.new.lines ≡ tally.old.lines }
{
    let fields = splitter.split(line)?;
    for place in 0..fields.len() {
        tally_field(alloc, &fields.get(place), tally)?;
    }
    tally.pieces = tally.pieces.wrapping_add(fields.len());
    Ok(())
}

fn split_all(alloc: Global, lines: &[&str]) -> Result<Tally, FieldEnd>
    ensures { IfOk result (λ tally. tally.lines ≡ length lines.now) }
{
    let mut splitter = Splitter::new(alloc);
    let mut tally = NOTHING;
    for line in lines {
        tally_line(alloc, &mut splitter, line, &mut tally)?;
        tally.lines += 1;
    }
    Ok(tally)
}

fn report(rt: &(impl Clock + Print), what: &str, from: Instant, tally: Tally) -> Result<()> {
    let micros = from.elapsed(rt)?.as_micros();
    println!(rt; "  {what}: {micros} us ({tally:?})")?;
    Ok(())
}

fn time_split(rt: &(impl Clock + Print), alloc: Global, lines: &[&str]) -> Result<Tally> {
    let started = Instant::now(rt)?;
    let split = split_all(alloc, lines)?;
    report(rt, "split", started, split)?;
    Ok(split)
}

fn time_plain(rt: &(impl Clock + Print), alloc: Global, lines: &[&str]) -> Result<Tally> {
    let started = Instant::now(rt)?;
    let plain = plain_all(alloc, lines)?;
    report(rt, "plain", started, plain)?;
    Ok(plain)
}

fn time_round(rt: &(impl Clock + Print), alloc: Global, lines: &[&str]) -> Result<()> {
    let split = time_split(rt, alloc, lines)?;
    let plain = time_plain(rt, alloc, lines)?;
    println!(rt; "  the same was seen: {}", split == plain)?;
    Ok(())
}
