//! The text of a run, made and written.
ghost use Rattle.std.specs.Prelude.{◌≡◌, true, Ok};
ghost use Rattle.cal_base.specs.Change.{Change, change_of};
ghost use Rattle.cal_call.specs.Causes.{Answers, WorksOn};
ghost use Rattle.cal_call.specs.Faults.{writes};
ghost use Rattle.cal_call.specs.Inputs.{Makes};
ghost use Rattle.cal_call.specs.Refusals.{refused_lines};
ghost use Rattle.cal_call.specs.Tasks.{Task};

use crate::showing::show;
use crate::{Fault, UsedJournal};
use cal_base::Sink;
use cal_value::Text;

/// A text that was made of a run, and the journal that the run used or left.
#[derive(Drop)]
pub struct Made {
    pub text: Text,
    pub journal: UsedJournal,
    /// How many of its lines were refused.
    pub refused: u64,
}

/// Writes the text of a run.
pub fn write_made<W: Sink>(made: &Made, output: &mut W) -> Option<Fault>
    requires { made.now.refused ≡ refused_lines made.now.journal }

    // This is the answer to whatever task and input the text was made of.
    ensures answers { (task : Task) (input : Change)
        → WorksOn task input (λ bytes. Makes task bytes made.now.text made.now.journal)
        → Answers (Ok task) input (change_of W.written W.faults output.old output.new)
        made.now.journal result }
    ensures writes { writes result ≡ true }
{
    match show(made.text.as_str(), output) {
        Ok(()) if made.refused == 0 => None,
        Ok(()) => Some(Fault::LinesRefused {
            lines: made.refused,
        }),
        Err(fault) => Some(fault),
    }
}
