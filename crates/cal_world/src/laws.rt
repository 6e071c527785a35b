//! Laws of the events of a lawful journal, and of their order.
ghost use Rattle.std.specs.Prelude.{◌≡◌, All, List, Some};
ghost use Rattle.cal_context.specs.Lists.{IsFront};
ghost use Rattle.cal_run.specs.Lawful.{Lawful, NotedLine, noted_lines};
ghost use Rattle.cal_run.specs.Steps.{found_reply, is_accepted, looks};
ghost use Rattle.cal_script.specs.declared.journal.Journal.{Journal};
ghost use Rattle.cal_script.specs.declared.script.Script.{Script};
ghost use Rattle.cal_world.specs.Events.{is_looking};
ghost use Rattle.cal_world.specs.Progress.{AreNext, IsWholeRun, at_start, progress_behind};
ghost use Rattle.cal_world.specs.Schedule.{schedule_of};
ghost use Rattle.cal_world.specs.declared.event.Event as events;

/// The law of the replies: the events of a lawful journal's lines, which are read off its replies,
/// are those of the lines' meaning. A line's reply tells whether it is accepted, and whether it
/// looks.
pub fn replies_law()
    ensures accepted { (script : Script) (journal : Journal) → Lawful script journal
        → All (λ (n : NotedLine). is_accepted (Some n.note.reply)
        ≡ is_accepted (found_reply script journal.ops n.line n.note n.state))
        (noted_lines script journal) }
    ensures looking { (script : Script) (journal : Journal) → Lawful script journal
        → All (λ (n : NotedLine). is_looking script n.line n.note
        ≡ looks script journal.ops n.line n.note n.state) (noted_lines script journal) }
{}

/// The law of every interleaving: in whatever order events come, each the next of its thread at its
/// turn, the history is the first of the lawful journal's.
pub fn history_law()
    ensures { (script : Script) (journal : Journal) → Lawful script journal
        → (es : List events.Event) → AreNext script journal (at_start script journal) es
        → IsFront (progress_behind (at_start script journal) es).history journal.ops }
{}

/// The law of the schedule: for each lawful journal its events are each the next of their thread at
/// their turn, and behind them all lines are done and the history is the journal's.
pub fn schedule_law()
    ensures { (script : Script) (journal : Journal) → Lawful script journal
        → IsWholeRun script journal (schedule_of script journal) }
{}
