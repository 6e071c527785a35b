//! A program's two triggers, asked of one record.
ghost use Rattle.std.specs.Prelude.{◌≡◌, IfOk, IsTrue};
ghost use Rattle.cal_filter.specs.Conditions.{where_holds};
ghost use Rattle.cal_trigger.specs.Named.{in_main, slow};

use cal_trigger::{Trigger, Triggers, is_in_main, is_slow, main_conditions, slow_conditions};
use cal_value::{OutOfMemory, Rec};
use std::alloc::Global;

/// What both triggers answer on a record.
#[derive(Clone, Copy, Debug, PartialEq, Eq)]
pub struct Decided {
    pub main: bool,
    pub slow: bool,
}

/// What `function=main` and `time.duration.ns>=1000` answer on a record.
pub fn answers(alloc: Global, rec: &Rec) -> Result<Decided, OutOfMemory>
    ensures main { IfOk result (λ answers. answers.main ≡ where_holds in_main rec.now) }
    ensures slow { IfOk result (λ answers. answers.slow ≡ where_holds slow rec.now) }
{
    let main = main_conditions(alloc)?;
    let slow = slow_conditions(alloc)?;
    let main = Trigger::new(main, is_in_main);
    let slow = Trigger::new(slow, is_slow);
    Ok(asked(&Triggers::new(main, slow), rec))
}

/// What these answer.
fn asked(triggers: &Triggers, rec: &Rec) -> Decided
    ensures main { result.main ≡ where_holds in_main rec.now }
    ensures slow { result.slow ≡ where_holds slow rec.now }
{
    Decided {
        main: triggers.main.holds(rec),
        slow: triggers.slow.holds(rec),
    }
}

/// Whether a record is slow or has no duration, which is no answer to `time.duration.ns>=1000`.
pub fn is_slow_or_timeless(rec: &Rec) -> bool
    ensures { IsTrue (where_holds slow rec.now) → IsTrue result }
{
    is_slow(rec) || !has_duration(rec)
}

fn has_duration(rec: &Rec) -> bool {
    for entry in rec.flat() {
        if entry.attr.name.as_str() == "time.duration.ns" {
            return true;
        }
    }
    false
}
