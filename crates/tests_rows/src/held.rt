use cal_value::OutOfMemory;
use std::process::Abort;

/// The answer is yes, and the memory was enough.
pub(crate) fn is_true(rt: &impl Abort, answer: Result<bool, OutOfMemory>) {
    assert_eq!(rt; answer, Ok(true));
}

/// No row of a table is wrong, and the memory was enough.
pub(crate) fn all_hold(rt: &impl Abort, wrong: Result<Option<usize>, OutOfMemory>) {
    assert_eq!(rt; wrong, Ok(None), "the first wrong row");
}
