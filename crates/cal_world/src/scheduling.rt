//! One order of all events that a journal allows.
ghost use Rattle.std.specs.Prelude.{◌≡◌, ◌<◌, ◌++◌, ℕ, Bool, List, length, filter, flat_map};
ghost use Rattle.std.specs.Prelude.{IfOk, OnOk};
ghost use Rattle.cal_run.specs.Lawful.{HasShape};
ghost use Rattle.cal_script.specs.Valid.{IsRunnable};
ghost use Rattle.cal_world.specs.Events.{events_of};
ghost use Rattle.cal_world.specs.Schedule.{schedule_of};
ghost use Rattle.cal_world.specs.Sorting.{AreSorted};
ghost use Rattle.cal_world.specs.Turns.{has_seen};
ghost use Rattle.cal_world.specs.declared.turn.Turn as turn_of;

use crate::events::push_turns;
use crate::listing::list_turns;
use crate::sorting::sort_turns;
use crate::{Event, Turn};
use cal_script::{Journal, Script};
use cal_value::{OutOfMemory, Seq};
use std::alloc::Global;

/// The events of all lines, those of each line together: the lines in the order of what they have
/// seen, of those that have seen alike the process line first, and the others by thread and number.
/// It takes time and memory in the lines, and in what each takes in of the history.
pub fn schedule(
    alloc: Global,
    script: &Script,
    journal: &Journal,
) -> Result<Seq<Event>, OutOfMemory>
    requires runnable { IsRunnable script.now }
    requires shape { HasShape script.now journal.now }
    ensures scheduled { IfOk result (λ events. events ≡ schedule_of script.now journal.now) }
{
    let listed = list_turns(alloc, script, journal)?;
    let turns = listed.as_slice();
    let count = journal.ops.as_slice().len() + 1;
    let placed = sort_turns(alloc, script, true, count, turns)?;
    let others = sort_turns(alloc, script, false, count, turns)?;
    let mut events = Seq::new(alloc);
    for seen in 0..count {
        push_row(script, journal, &placed, seen, &mut events)?;
        push_row(script, journal, &others, seen, &mut events)?;
    }
    Ok(events)
}

/// The events of the lines of a row.
fn push_row(
    script: &Script,
    journal: &Journal,
    rows: &Vec<Vec<Turn>>,
    seen: usize,
    events: &mut Seq<Event>,
) -> Result<(), OutOfMemory>
    requires within { seen < length rows.now.items }
    ensures { OnOk result ((shared : Bool) (count : ℕ) (ts : List turn_of.Turn)
        → AreSorted script.now shared count ts rows.now.items
        → events.new ≡ events.old ++ flat_map (events_of script.now journal.now)
        (filter (has_seen script.now shared seen) ts)) }
{
    let row = rows[seen].as_slice();
    push_turns(script, journal, row, events)
}
