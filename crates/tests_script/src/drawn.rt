use cal_script::{ScriptEnd, ScriptKind, read_script};
use cal_value::OutOfMemory;
use std::alloc::{AllocError, Global};
use std::process::Abort;

/// A script with its first fault, if it has one.
pub(crate) type Case = (&'static str, Option<(u64, ScriptKind)>);

/// The first fault of a script.
pub(crate) fn fault_of(
    alloc: Global,
    bytes: &[u8],
) -> Result<Option<(u64, ScriptKind)>, OutOfMemory> {
    match read_script(alloc, bytes) {
        Ok(_) => Ok(None),
        Err(ScriptEnd::BadLine { line, kind }) => Ok(Some((line, kind))),
        Err(ScriptEnd::OutOfMemory) => Err(OutOfMemory),
    }
}

/// Lines that stand so often each.
pub(crate) fn repeated(alloc: Global, parts: &[(&str, usize)]) -> Result<String, AllocError> {
    let mut text = String::new(alloc);
    for (part, count) in parts {
        for _ in 0..*count {
            text.push_str(part)?;
        }
    }
    Ok(text)
}

/// The first script of a table that has another fault.
pub(crate) fn wrong_case(
    alloc: Global,
    cases: &'static [Case],
) -> Result<Option<&'static str>, OutOfMemory> {
    for row in 0..cases.len() {
        if fault_of(alloc, cases[row].0.as_bytes())? != cases[row].1 {
            return Ok(Some(cases[row].0));
        }
    }
    Ok(None)
}

/// No script of a table is wrong, and the memory was enough.
pub(crate) fn all_hold(rt: &impl Abort, wrong: Result<Option<&'static str>, OutOfMemory>) {
    assert_eq!(rt; wrong, Ok(None), "the first wrong row");
}
