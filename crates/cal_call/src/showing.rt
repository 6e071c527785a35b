//! A text on the output: whole, or up to where the output failed.
ghost use Rattle.std.specs.Result.{result_err};
ghost use Rattle.cal_base.specs.Change.{change_of};
ghost use Rattle.cal_call.specs.Ends.{Shows};

use crate::Fault;
use cal_base::Sink;

/// Puts a text on the output.
pub fn show<W: Sink>(text: &str, output: &mut W) -> Result<(), Fault>
    ensures { Shows text.now (change_of W.written W.faults output.old output.new)
        (result_err result) }
{
    match output.put(text.as_bytes()) {
        Ok(()) => Ok(()),
        Err(_) => Err(Fault::WriteFault),
    }
}
