//! Laws of the worlds that events of a lawful journal leave.
ghost use Rattle.std.specs.Prelude.{◌≡◌, List};
ghost use Rattle.cal_events.specs.Effects.{world_behind};
ghost use Rattle.cal_events.specs.Keeping.{EndsJournal, KeepsJournal};
ghost use Rattle.cal_events.specs.Worlds.{world_at_start};
ghost use Rattle.cal_run.specs.Lawful.{Lawful};
ghost use Rattle.cal_script.specs.declared.journal.Journal.{Journal};
ghost use Rattle.cal_script.specs.declared.script.Script.{Script};
ghost use Rattle.cal_world.specs.Progress.{AreNext, at_end, at_start, progress_behind};
ghost use Rattle.cal_world.specs.Schedule.{schedule_of};
ghost use Rattle.cal_world.specs.declared.event.Event as events;

/// The law of every world: in whatever order events come, each the next of its thread at its turn,
/// the world keeps the lawful journal. Each thread's notes and traces are the first of its own
/// there, each channel's book and what isn't flushed together have the snapshots of the lines done,
/// each once, and the paths that boards hold have a node.
pub fn world_law()
    ensures { (script : Script) (journal : Journal) → Lawful script journal
        → (es : List events.Event) → AreNext script journal (at_start script journal) es
        → KeepsJournal script journal
        (world_behind script journal (world_at_start script journal) es) }
{}

/// The law of the ended world: in whatever order the events of a lawful journal came, each the next
/// of its thread at its turn, once all lines are done and the history is the journal's, they leave
/// the world of the whole journal, with its history, notes and snapshots, and with as many paths as
/// the run has nodes.
pub fn ended_world_law()
    ensures { (script : Script) (journal : Journal) → Lawful script journal
        → (es : List events.Event) → AreNext script journal (at_start script journal) es
        → progress_behind (at_start script journal) es ≡ at_end script journal
        → EndsJournal script journal
        (world_behind script journal (world_at_start script journal) es) }
{}

/// The law of the scheduled world: the events of the schedule of a lawful journal leave the world
/// of the whole journal, with its history, notes and snapshots, and with as many paths as the run
/// has nodes.
pub fn scheduled_world_law()
    ensures { (script : Script) (journal : Journal) → Lawful script journal
        → EndsJournal script journal (world_behind script journal
        (world_at_start script journal) (schedule_of script journal)) }
{}
