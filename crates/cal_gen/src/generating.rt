ghost use Rattle.std.specs.Prelude.{◌≡◌, ◌<◌, ◌≤◌, [], ◌∷◌, ◌++◌, codes, decimal, length, map};
ghost use Rattle.std.specs.Prelude.{slice_index_or, IfOk, OnOk};
ghost use Rattle.cal_gen.specs.Draws.{drawn, next};
ghost use Rattle.cal_gen.specs.Generated.{generated, header, line_from, lines_from, look_line};

use crate::draws::Draws;
use crate::moves::Move;
use cal_value::{OutOfMemory, Text};
use itoa::Buffer;
use std::alloc::Global;

const HEADER: &str = "attribute function string 276\nattribute iteration int 21\n\
    channel profile event,timer,aggregate\n";

/// The most bytes that a line has, with its newline.
const MOST_OF_A_LINE: usize = 19;

/// The script of a seed, with so many threads of so many lines. It takes time in their product. The
/// room for the longest one is taken at once: a system gives what isn't written of it no memory.
pub fn generate(alloc: Global, seed: u32, threads: u32, lines: u32) -> Result<Text, OutOfMemory>
    ensures { IfOk result (λ text. text ≡ generated seed threads lines) }
{
    let mut text = Text::from_string(String::with_capacity(alloc, room_for(threads, lines))?);
    text.push_str(HEADER)?;
    let mut draws = Draws { x: seed };
    for _ in 0..threads {
        text.push_str("thread\n")?;
        push_lines(&mut text, &mut draws, lines)?;
    }
    Ok(text)
}

/// As many bytes as a script of these sizes has at most. Nothing else rests on it.
fn room_for(threads: u32, lines: u32) -> usize {
    let of_a_thread = "thread\n".len() + lines as usize * MOST_OF_A_LINE;
    of_a_thread
        .saturating_mul(threads as usize)
        .saturating_add(HEADER.len())
}

/// The lines that declare what a script has, before its threads.
pub fn header() -> &'static str
    ensures { result.now ≡ header }
{
    HEADER
}

/// Appends the lines of a thread, each with its newline.
fn push_lines(text: &mut Text, draws: &mut Draws, lines: u32) -> Result<(), OutOfMemory>
    ensures text { OnOk result (text.new
        ≡ text.old ++ (lines_from lines (record { x = draws.old.x; depth = 0 })).text) }
    ensures draws { OnOk result (draws.new.x
        ≡ (lines_from lines (record { x = draws.old.x; depth = 0 })).x) }
{
    let mut depth = 0;
    for _ in 0..lines {
        depth = push_line(text, draws, depth)?;
    }
    Ok(())
}

/// Appends the next line of a thread with its newline, and gives how many values are open behind
/// it.
fn push_line(text: &mut Text, draws: &mut Draws, depth: u32) -> Result<u32, OutOfMemory>
    requires { depth ≤ 32 }
    ensures text { OnOk result (text.new
        ≡ text.old ++ ((line_from (record { x = draws.old.x; depth = depth })).line ++ 10 ∷ [])) }
    ensures draws { OnOk result (draws.new.x
        ≡ (line_from (record { x = draws.old.x; depth = depth })).after.x) }
    ensures depth { IfOk result (λ after. after
        ≡ (line_from (record { x = draws.old.x; depth = depth })).after.depth) }
    ensures within { IfOk result (λ after. after ≤ 32) }
{
    match Move::of(draws.draw(8), depth) {
        Move::Begin => {
            push_begin(text, draws)?;
            Ok(depth + 1)
        }
        Move::End => {
            text.push_str("end function\n")?;
            Ok(depth - 1)
        }
        Move::Iterate => {
            push_number(text, draws, "set iteration ", 1000)?;
            Ok(depth)
        }
        Move::Tick => {
            push_number(text, draws, "tick ", 10_000)?;
            Ok(depth)
        }
        Move::Look => {
            push_look(text, draws)?;
            Ok(depth)
        }
    }
}

/// Appends a line that opens one of sixteen values.
fn push_begin(text: &mut Text, draws: &mut Draws) -> Result<(), OutOfMemory>
    ensures text { OnOk result (text.new ≡ text.old
        ++ ((codes "begin function f" ++ decimal (drawn 16 (next draws.old.x))) ++ 10 ∷ [])) }
    ensures draws { draws.new.x ≡ next draws.old.x }
{
    text.push_str(begin_line(draws.draw(16)))
}

/// The lines that open values, each whole: most lines with a number are such, and one piece is
/// appended faster than three. They lie in a list, since a choice among sixteen is mostly guessed
/// wrong by a processor.
const BEGIN_LINES: [&str; 16] = [
    "begin function f0\n",
    "begin function f1\n",
    "begin function f2\n",
    "begin function f3\n",
    "begin function f4\n",
    "begin function f5\n",
    "begin function f6\n",
    "begin function f7\n",
    "begin function f8\n",
    "begin function f9\n",
    "begin function f10\n",
    "begin function f11\n",
    "begin function f12\n",
    "begin function f13\n",
    "begin function f14\n",
    "begin function f15\n",
];

/// The line that opens a value.
fn begin_line(value: u32) -> &'static str
    requires { value < 16 }
    ensures { result.now ≡ (codes "begin function f" ++ decimal value) ++ 10 ∷ [] }
{
    text_at(&BEGIN_LINES, value as usize)
}

fn text_at(texts: &[&'static str], place: usize) -> &'static str
    requires { place < length texts.now }
    ensures { result.now ≡ slice_index_or (map (λ text. text.now) texts.now) place [] }
{
    texts[place]
}

/// Appends a line of a word and a number that is drawn from so many.
fn push_number(
    text: &mut Text,
    draws: &mut Draws,
    front: &str,
    count: u32,
) -> Result<(), OutOfMemory>
    requires { 0 < count }
    ensures text { OnOk result (text.new
        ≡ text.old ++ ((front.now ++ decimal (drawn count (next draws.old.x))) ++ 10 ∷ [])) }
    ensures draws { draws.new.x ≡ next draws.old.x }
{
    let number = draws.draw(count);
    text.push_str(front)?;
    text.push_str(Buffer::new().format(number))?;
    text.push('\n')
}

/// Appends a line that flushes, or one that takes a snapshot.
fn push_look(text: &mut Text, draws: &mut Draws) -> Result<(), OutOfMemory>
    ensures text { OnOk result (text.new
        ≡ text.old ++ (look_line (drawn 16 (next draws.old.x)) ++ 10 ∷ [])) }
    ensures draws { draws.new.x ≡ next draws.old.x }
{
    if draws.draw(16) == 0 {
        text.push_str("flush profile\n")
    } else {
        text.push_str("snapshot\n")
    }
}
