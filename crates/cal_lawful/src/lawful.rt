ghost use Rattle.std.specs.Prelude.{IfErr, OnOk};
ghost use Rattle.cal_lawful.specs.Broken.{HoldsRule, IsLawfulText, all_rows};
ghost use Rattle.cal_lawful.specs.Checking.{AreMerged, EndsBy, HoldFirst, IsOfRows, IsRefusalOf, TellsRule};
ghost use Rattle.cal_script.specs.Valid.{IsRunnable};

use crate::CoreEnd;
use crate::finding::test_found;
use crate::merged::Merged;
use crate::order::{check_known, check_order};
use crate::seen::test_seen;
use crate::shape::{check_shape, mark_at};
use cal_journal::JournalKind;
use cal_script::{JournalText, Script};
use cal_seeds::Seeds;
use std::alloc::Global;

/// Tests that a journal is a lawful one of its script, or gives the first rule that it breaks, with
/// the first of the input's lines on which it breaks it. It takes time in the lines of both, and for
/// each thread in the history. What the script chooses is hashed by the seeds.
pub fn check_journal(
    alloc: Global,
    seeds: Seeds,
    script: &Script,
    text: &JournalText,
) -> Result<(), CoreEnd>
    requires { IsRunnable script.now }
    ensures lawful { OnOk result (IsLawfulText script.now text.now) }
    ensures fault { IfErr result (IsRefusalOf script.now text.now) }
{
    check_history(alloc, script, text)?;
    check_rows(alloc, seeds, script, text)?;
    Ok(())
}

/// Tests the rules Shape, OpStranger and OpOrder.
fn check_history(alloc: Global, script: &Script, text: &JournalText) -> Result<(), CoreEnd>
    requires { IsRunnable script.now }
    ensures held { OnOk result (HoldFirst script.now text.now 3) }
    ensures fault { IfErr result (IsRefusalOf script.now text.now) }
{
    check_shape(alloc, script, text)?;
    check_known(script, text)?;
    check_order(alloc, script, text)?;
    Ok(())
}

/// Tests the others, where those hold.
fn check_rows(
    alloc: Global,
    seeds: Seeds,
    script: &Script,
    text: &JournalText,
) -> Result<(), CoreEnd>
    requires runnable { IsRunnable script.now }
    requires held { HoldFirst script.now text.now 3 }
    ensures lawful { OnOk result (IsLawfulText script.now text.now) }
    ensures fault { IfErr result (IsRefusalOf script.now text.now) }
{
    let tests = test_seen(alloc, script, &text.journal)?;
    check_row(script, text, tests.falls, JournalKind::SeenFalls)?;
    check_row(script, text, tests.past, JournalKind::SeenPast)?;
    check_row(script, text, tests.own, JournalKind::SeenOwn)?;
    check_found(alloc, seeds, script, text, &tests.merged)?;
    Ok(())
}

/// Tests the last three, where the others hold.
fn check_found(
    alloc: Global,
    seeds: Seeds,
    script: &Script,
    text: &JournalText,
    merged: &Merged,
) -> Result<(), CoreEnd>
    requires runnable { IsRunnable script.now }
    requires held { HoldFirst script.now text.now 6 }
    requires merged { AreMerged (all_rows script.now text.now.journal) merged.now.marks.items }
    ensures lawful { OnOk result (IsLawfulText script.now text.now) }
    ensures fault { IfErr result (IsRefusalOf script.now text.now) }
{
    let tests = test_found(alloc, seeds, script, &text.journal, merged)?;
    check_row(script, text, tests.fixed, JournalKind::SeenFixed)?;
    check_row(script, text, tests.reading, JournalKind::Reading)?;
    check_row(script, text, tests.reply, JournalKind::Reply)?;
    Ok(())
}

/// The fault of a rule on rows, where one breaks it.
fn check_row(
    script: &Script,
    text: &JournalText,
    first: Option<usize>,
    kind: JournalKind,
) -> Result<(), CoreEnd>
    requires rows { IsOfRows kind }
    requires told { TellsRule script.now text.now.journal kind first
        (all_rows script.now text.now.journal) }
    ensures held { OnOk result (HoldsRule script.now text.now kind) }
    ensures broken { IfErr result (EndsBy script.now text.now kind) }
{
    let _ = script;
    match first {
        None => Ok(()),
        Some(row) => Err(CoreEnd::JournalFault {
            line: mark_at(text, row).line,
            kind,
        }),
    }
}
