ghost use Rattle.std.specs.Prelude.{◌≡◌, ◌<◌, ◌≤◌, ◌+◌, ◌*◌, ◌++◌, ◌∷◌, [], length, IfOk, OnOk};
ghost use Rattle.cal_gen.specs.Generated.{generated};
ghost use Rattle.cal_gen.specs.Steps.{last_draw, next_lines, next_step, next_threads};
ghost use Rattle.cal_script.specs.Reading.{Means};
ghost use Rattle.cal_gen.specs.GeneratedScript.{generated_script, look_line};

use crate::opened::Opened;
use crate::{Draws, Move, header};
use cal_script::{Line, Script, ScriptEnd, Ticks, meaning_law, read_script};
use cal_value::{OutOfMemory, Seq};
use std::alloc::Global;

/// The script that the text of a seed and two sizes means, which are within the limits of scripts.
/// It takes time in their product.
pub fn generate_script(
    alloc: Global,
    seed: u32,
    threads: u32,
    lines: u32,
) -> Result<Script, OutOfMemory>
    requires threads { threads ≤ 64 }
    requires lines { threads * lines ≤ 1048576 }
    ensures { IfOk result (Means (generated seed threads lines)) }
{
    let mut opened = Opened::new(alloc);
    let all = all_threads(alloc, seed, threads, lines, &mut opened)?;
    let values = opened.into_values(alloc)?;
    let declared = read_header(alloc)?;
    Ok(Script {
        attributes: declared.attributes,
        channels: declared.channels,
        values,
        threads: all,
        globals: declared.globals,
    })
}

/// The script that the header alone means.
fn read_header(alloc: Global) -> Result<Script, OutOfMemory>
    ensures { IfOk result (λ script. script ≡ generated_script 0 0 0) }
{
    meaning_law();
    match read_script(alloc, header().as_bytes()) {
        Ok(script) => Ok(script),
        Err(ScriptEnd::OutOfMemory) => Err(OutOfMemory),
        Err(ScriptEnd::BadLine { .. }) => unreachable!(),
    }
}

/// The lines of so many threads.
fn all_threads(
    alloc: Global,
    seed: u32,
    threads: u32,
    lines: u32,
    opened: &mut Opened,
) -> Result<Seq<Seq<Line>>, OutOfMemory>
    requires room { length opened.old + threads * lines ≤ 1048576 }
    ensures threads { IfOk result (λ all. all
        ≡ (next_threads threads lines opened.old seed).threads) }
    ensures values { OnOk result (opened.new
        ≡ opened.old ++ (next_threads threads lines opened.old seed).values) }
{
    let mut all = Seq::new(alloc);
    let mut draws = Draws { x: seed };
    for _ in 0..threads {
        all.push(thread_lines(alloc, lines, &mut draws, opened)?)?;
    }
    Ok(all)
}

/// So many lines of a thread.
fn thread_lines(
    alloc: Global,
    count: u32,
    draws: &mut Draws,
    opened: &mut Opened,
) -> Result<Seq<Line>, OutOfMemory>
    requires room { length opened.old + count ≤ 1048576 }
    ensures lines { IfOk result (λ lines. lines
        ≡ (next_lines count opened.old draws.old.x 0).lines) }
    ensures values { OnOk result (opened.new
        ≡ opened.old ++ (next_lines count opened.old draws.old.x 0).values) }
    ensures draws { OnOk result (draws.new.x ≡ last_draw count draws.old.x 0) }
    ensures few { OnOk result (length opened.new ≤ length opened.old + count) }
{
    let mut lines = Seq::from_vec(Vec::with_capacity(alloc, count as usize)?);
    let mut depth = 0;
    for _ in 0..count {
        depth = push_line(&mut lines, draws, opened, depth)?;
    }
    Ok(lines)
}

/// Adds the next line of a thread, and gives how many values are open behind it.
fn push_line(
    lines: &mut Seq<Line>,
    draws: &mut Draws,
    opened: &mut Opened,
    depth: u32,
) -> Result<u32, OutOfMemory>
    requires depth { depth ≤ 32 }
    requires room { length opened.old < 1048576 }
    ensures line { OnOk result (lines.new
        ≡ lines.old ++ (next_step opened.old draws.old.x depth).line ∷ []) }
    ensures values { OnOk result (opened.new
        ≡ opened.old ++ (next_step opened.old draws.old.x depth).values) }
    ensures draws { OnOk result (draws.new.x
        ≡ (next_step opened.old draws.old.x depth).after.x) }
    ensures depth { IfOk result (λ after. after
        ≡ (next_step opened.old draws.old.x depth).after.depth) }
    ensures within { IfOk result (λ after. after ≤ 32) }
    ensures few { OnOk result (length opened.new ≤ length opened.old + 1) }
{
    match Move::of(draws.draw(8), depth) {
        Move::Begin => {
            let value = opened.push_name(draws.draw(16))?;
            lines.push(Line::Begin { attr: 0, value })?;
            Ok(depth + 1)
        }
        Move::End => {
            lines.push(Line::End { attr: 0 })?;
            Ok(depth - 1)
        }
        Move::Iterate => {
            let value = opened.push_number(draws.draw(1000))?;
            lines.push(Line::Set { attr: 1, value })?;
            Ok(depth)
        }
        Move::Tick => {
            let n = Ticks::new(u64::from(draws.draw(10_000)));
            lines.push(Line::Tick { n })?;
            Ok(depth)
        }
        Move::Look => {
            lines.push(look_line(draws.draw(16)))?;
            Ok(depth)
        }
    }
}

/// A line that flushes, or one that takes a snapshot.
fn look_line(choice: u32) -> Line
    ensures { result ≡ look_line choice }
{
    if choice == 0 {
        Line::Flush { channel: 0 }
    } else {
        Line::Snapshot
    }
}
