//! Folds that are merged.
ghost use Rattle.cal_ql.specs.Valid.{IsValidQuery};

use crate::texts::{Row, has_rows, record};
use cal_engine::Fold;
use cal_ql::{Query, parse_query};
use cal_value::OutOfMemory;
use std::alloc::Global;

const FIRST: [Row; 2] = [
    (&["main", "a"], &[("x", "1")]),
    (&["main", "b"], &[("x", "2")]),
];

const LAST: [Row; 3] = [
    (&["main"], &[("x", "4")]),
    (&["main", "b"], &[("x", "3")]),
    (&["main"], &[("x", "5")]),
];

fn add_all(alloc: Global, fold: &mut Fold, rows: &[Row]) -> Result<(), OutOfMemory> {
    for row in rows {
        fold.add(record(alloc, row)?)?;
    }
    Ok(())
}

/// The fold of these rows. Where one isn't given back it is dropped by name.
fn filled(alloc: Global, query: &Query, rows: &[Row]) -> Result<Fold, OutOfMemory>
    requires { IsValidQuery query.now }
{
    let mut fold = Fold::new(alloc, query)?;
    match add_all(alloc, &mut fold, rows) {
        Ok(()) => Ok(fold),
        Err(end) => {
            drop(fold);
            Err(end)
        }
    }
}

fn merge_into(
    alloc: Global,
    query: &Query,
    fold: &mut Fold,
    rows: &[Row],
) -> Result<(), OutOfMemory>
    requires { IsValidQuery query.now }
{
    let other = filled(alloc, query, rows)?;
    fold.merge(other)
}

fn merged(alloc: Global, query: &Query, first: &[Row], last: &[Row]) -> Result<Fold, OutOfMemory>
    requires { IsValidQuery query.now }
{
    let mut fold = filled(alloc, query, first)?;
    match merge_into(alloc, query, &mut fold, last) {
        Ok(()) => Ok(fold),
        Err(end) => {
            drop(fold);
            Err(end)
        }
    }
}

fn ends_so(alloc: Global, fold: Fold, wanted: &str) -> bool {
    match fold.finish() {
        Ok(answer) => has_rows(alloc, &answer, wanted),
        Err(_) => false,
    }
}

fn are_merged(alloc: Global, query: &Query, first: &[Row], last: &[Row], wanted: &str) -> bool
    requires { IsValidQuery query.now }
{
    match merged(alloc, query, first, last) {
        Ok(fold) => ends_so(alloc, fold, wanted),
        Err(_) => false,
    }
}

/// Whether two folds that are merged answer with these rows.
fn merge_to(alloc: Global, text: &str, first: &[Row], last: &[Row], wanted: &str) -> bool {
    match parse_query(alloc, text) {
        Ok(query) => are_merged(alloc, &query, first, last, wanted),
        Err(_) => false,
    }
}

#[test]
fn merged_folds_answer_for_both(rt: HostRuntime) {
    let text = "aggregate sum(x) group by path";
    let wanted = "/main/a sum#x=1;/main/b sum#x=5;/main sum#x=9;";
    assert!(rt; merge_to(rt.alloc(), text, &FIRST, &LAST, wanted));
}

#[test]
fn a_fold_of_nothing_takes_the_other(rt: HostRuntime) {
    let text = "aggregate sum(x) group by path";
    let wanted = "/main sum#x=9;/main/b sum#x=3;";
    assert!(rt; merge_to(rt.alloc(), text, &[], &LAST, wanted));
}

#[test]
fn merged_folds_without_groups_keep_all_records(rt: HostRuntime) {
    let wanted = "/main/b x=2;/main x=4;/main/b x=3;/main x=5;";
    assert!(rt; merge_to(rt.alloc(), "where x>1", &FIRST, &LAST, wanted));
}
