ghost use Rattle.std.specs.Prelude.{◌≡◌, ◌++◌, ◌∷◌, [], ◌↔◌, ◌<◌, length, false, All, IfErr, IfOk};
ghost use Rattle.std.specs.Prelude.{IsTrue, List, OnOk, Some, replicate, slice_get};
ghost use Rattle.cal_journal.specs.declared.kind.JournalKind.TheVariants as kind;
ghost use Rattle.cal_lawful.specs.Broken.{HasBegun, op_line};
ghost use Rattle.cal_lawful.specs.Checking.{AreCounted, AreListed, EndsBy, Tells, TellsOrder};
ghost use Rattle.cal_run.specs.Lawful.{HasOrder, IsKnown, process_lines};
ghost use Rattle.cal_script.specs.declared.journal.Placed as places;
ghost use Rattle.cal_script.specs.Valid.{IsRunnable};

use crate::CoreEnd;
use cal_journal::JournalKind;
use cal_run::{is_process_line, line_at};
use cal_script::{JournalText, Line, Placed, Script};
use cal_value::OutOfMemory;
use std::alloc::Global;

/// Tests that each operation of the history names a process line.
pub(crate) fn check_known(script: &Script, text: &JournalText) -> Result<(), CoreEnd>
    ensures held { OnOk result (All (IsKnown script.now) text.now.journal.ops) }
    ensures broken { IfErr result (EndsBy script.now text.now kind.OpStranger) }
{
    match first_stranger(script, text.journal.ops.as_slice()) {
        None => Ok(()),
        Some(place) => Err(CoreEnd::JournalFault {
            line: op_line(text, place),
            kind: JournalKind::OpStranger,
        }),
    }
}

/// Tests that the history has the process lines of each thread, in line order, and each once.
pub(crate) fn check_order(alloc: Global, script: &Script, text: &JournalText) -> Result<(), CoreEnd>
    requires runnable { IsRunnable script.now }
    requires known { All (IsKnown script.now) text.now.journal.ops }
    ensures held { OnOk result (HasOrder script.now text.now.journal.ops) }
    ensures broken { IfErr result (EndsBy script.now text.now kind.OpOrder) }
{
    let lists = process_lists(alloc, script)?;
    let ops = text.journal.ops.as_slice();
    let mut counts = no_counts(alloc, &lists)?;
    if let Some(place) = first_out_of_order(script, &lists, ops, &mut counts) {
        return Err(CoreEnd::JournalFault {
            line: op_line(text, place),
            kind: JournalKind::OpOrder,
        });
    }
    if !are_all_placed(script, &lists, ops, &counts) {
        return Err(CoreEnd::JournalFault {
            line: text.marks.end,
            kind: JournalKind::OpOrder,
        });
    }
    Ok(())
}

/// No operation of any thread.
fn no_counts(alloc: Global, lists: &[Vec<u32>]) -> Result<Vec<usize>, OutOfMemory>
    ensures { IfOk result (λ counts. counts.items ≡ replicate (length lists.now) 0) }
{
    let mut counts = Vec::with_capacity(alloc, lists.len())?;
    for _thread in 0..lists.len() {
        counts.push(0)?;
    }
    Ok(counts)
}

/// The input's line of an operation.
fn op_line(text: &JournalText, place: usize) -> u64
    ensures { result ≡ op_line text.now place }
{
    match text.marks.ops.get(place) {
        Some(line) => *line,
        None => 0,
    }
}

fn first_stranger(script: &Script, ops: &[Placed]) -> Option<usize>
    ensures { Tells (IsKnown script.now) result ops.now }
{
    for place in 0..ops.len() {
        if !names_process_line(script, ops[place]) {
            return Some(place);
        }
    }
    None
}

fn names_process_line(script: &Script, op: Placed) -> bool
    ensures { IsTrue result ↔ IsKnown script.now op }
{
    match line_at(script, op) {
        None => false,
        Some(line) => is_process_line(script, line),
    }
}

/// The numbers of the process lines of each thread.
fn process_lists(alloc: Global, script: &Script) -> Result<Vec<Vec<u32>>, OutOfMemory>
    requires { IsRunnable script.now }
    ensures { IfOk result (λ lists. AreListed script.now lists.items script.now.threads) }
{
    let threads = script.threads.as_slice();
    let mut lists = Vec::new(alloc);
    for thread in 0..threads.len() {
        lists.push(process_list(alloc, script, threads[thread].as_slice())?)?;
    }
    Ok(lists)
}

fn process_list(alloc: Global, script: &Script, lines: &[Line]) -> Result<Vec<u32>, OutOfMemory>
    requires { length lines.now < 4294967296 }
    ensures { IfOk result (λ list. list.items ≡ process_lines script.now lines.now) }
{
    let mut list = Vec::new(alloc);
    for place in 0..lines.len() {
        if is_process_line(script, lines[place]) {
            list.push(place as u32 + 1)?;
        }
    }
    Ok(list)
}

/// The first operation that isn't the next process line of its thread. The counts are how many of
/// each thread are placed.
fn first_out_of_order(
    script: &Script,
    lists: &[Vec<u32>],
    ops: &[Placed],
    counts: &mut [usize],
) -> Option<usize>
    requires listed { AreListed script.now lists.now script.now.threads }
    requires known { All (IsKnown script.now) ops.now }
    requires none { AreCounted script.now [] counts.old }
    ensures { TellsOrder script.now ops.now result counts.new }
{
    for place in 0..ops.len() {
        if !take_next(script, lists, ops[place], counts) {
            return Some(place);
        }
    }
    None
}

/// Counts an operation, where it is the next of its thread.
fn take_next(script: &Script, lists: &[Vec<u32>], op: Placed, counts: &mut [usize]) -> bool
    requires listed { AreListed script.now lists.now script.now.threads }
    requires known { IsKnown script.now op }
    requires long { length counts.old ≡ length script.now.threads }
    ensures taken { (history : List places.Placed) → AreCounted script.now history counts.old
        → IsTrue result → AreCounted script.now (history ++ op ∷ []) counts.new }
    ensures not { (history : List places.Placed) → AreCounted script.now history counts.old
        → result ≡ false → ¬ HasBegun script.now (history ++ op ∷ []) }
{
    let thread = op.thread as usize;
    let count = counts[thread];
    if is_at(&lists[thread], count, op.line) {
        counts[thread] = count + 1;
        true
    } else {
        false
    }
}

fn is_at(list: &[u32], place: usize, line: u32) -> bool
    ensures { IsTrue result ↔ (slice_get list.now place ≡ Some line) }
{
    match list.get(place) {
        None => false,
        Some(number) => *number == line,
    }
}

fn are_all_placed(script: &Script, lists: &[Vec<u32>], ops: &[Placed], counts: &[usize]) -> bool
    requires listed { AreListed script.now lists.now script.now.threads }
    requires counted { AreCounted script.now ops.now counts.now }
    ensures { IsTrue result ↔ HasOrder script.now ops.now }
{
    let _ = script;
    let _ = ops;
    for thread in 0..lists.len() {
        if counts[thread] < lists[thread].len() {
            return false;
        }
    }
    true
}
