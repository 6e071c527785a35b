//! What a line is answered.
ghost use Rattle.std.specs.Prelude.{◌≡◌, ℕ, Bool, IfOk, OnOk};
ghost use Rattle.cal_replay.specs.Steps.{Flushes, HasReply, IsGiven};
ghost use Rattle.cal_script.specs.Valid.{IsPlaced};
ghost use Rattle.cal_script.specs.declared.script.Line.TheVariants as line_is;
ghost use Rattle.cal_script.specs.declared.script.Script as scripts;

use crate::Keeper;
use cal_script::{Line, Reply};
use cal_value::OutOfMemory;

/// The reply to a line, and its reading if it took one.
#[derive(Clone, Copy, Debug)]
pub(crate) struct Answer {
    pub reply: Reply,
    pub reading: Option<u64>,
}

/// The reply to a line: the one that a board gives, or that to a flush.
pub(crate) fn reply_or_flush<F: Keeper>(
    line: Line,
    found: Option<Reply>,
    keeper: &mut F,
) -> Result<Reply, OutOfMemory>
    requires found { HasReply line found }
    requires ready { (script : scripts.Script) × (timed : Bool) × (left : ℕ)
        × F.ready script keeper.old timed left
        × IsPlaced script.attributes script.channels script.values line }
    ensures reply { IfOk result (IsGiven (F.thread keeper.old) found) }
    ensures flushes { IfOk result (Flushes F.flushed keeper.old keeper.new line) }
    ensures ready { OnOk result ((script : scripts.Script) (timed : Bool) (left : ℕ)
        → F.ready script keeper.old timed left → F.ready script keeper.new timed left) }
    ensures thread { OnOk result (F.thread keeper.new ≡ F.thread keeper.old) }
{
    match found {
        Some(reply) => Ok(reply),
        None => {
            let reply = keeper.flush(flushed(line))?;
            Ok(reply)
        }
    }
}

/// The channel that a line flushes; of another line any.
fn flushed(line: Line) -> u32
    ensures { (channel : ℕ) → line ≡ line_is.Flush channel → result ≡ channel }
{
    match line {
        Line::Flush { channel } => channel,
        _ => 0,
    }
}
