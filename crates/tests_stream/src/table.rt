//! What tests of tables say.

use std::process::Abort;

/// No row of a table is wrong.
pub(crate) fn all_hold(rt: &impl Abort, wrong: Option<usize>) {
    assert_eq!(rt; wrong, None, "the first wrong row");
}
