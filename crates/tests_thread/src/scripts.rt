//! Scripts that can be run.
ghost use Rattle.std.specs.Prelude.{IfOk};
ghost use Rattle.cal_script.specs.Reading.{Means};
ghost use Rattle.cal_script.specs.Valid.{IsRunnable};

use cal_script::{Script, read_script};
use cal_valid::valid_script_law;
use std::alloc::Global;
use std::test::Fail;

/// The script that a text means.
fn script_of(alloc: Global, text: &str) -> Result<Script, Fail>
    ensures { IfOk result (Means text.now) }
{
    let script = read_script(alloc, text.as_bytes())?;
    Ok(script)
}

/// A script that can be run.
pub(crate) fn runnable(alloc: Global, text: &str) -> Result<Script, Fail>
    ensures { IfOk result IsRunnable }
{
    valid_script_law();
    let script = script_of(alloc, text)?;
    Ok(script)
}
