//! Laws of the notes of running threads. Nothing here is ever run.

ghost use Rattle.std.specs.Prelude.{◌≡◌, ℕ, ◌+◌, ◌<◌, ◌≤◌, Bool, List, [], ◌∷◌, ◌++◌, length};
ghost use Rattle.std.specs.Prelude.{All, Option};
ghost use Rattle.cal_notes.specs.Notes.{KeepsRules, LineKeeps, OfOthers, known_journal};
ghost use Rattle.cal_notes.specs.Running.{HasNoted, RunsNext, next_line, number_placed};
ghost use Rattle.cal_notes.specs.Running.{previous_behind, started, state_behind, with_line};
ghost use Rattle.cal_notes.specs.Together.{Begins, HaveEnded};
ghost use Rattle.cal_once.specs.Layout.{times};
ghost use Rattle.cal_once.specs.Sound.{IsSound};
ghost use Rattle.cal_once.specs.declared.view.Plan.{Plan};
ghost use Rattle.cal_once.specs.declared.view.View.{View};
ghost use Rattle.cal_plog.specs.History.{HasJoined, HasSeen};
ghost use Rattle.cal_plog.specs.Seats.{op_law};
ghost use Rattle.cal_process.specs.Operations.{IsOpOf, history_of};
ghost use Rattle.cal_run.specs.Lawful.{IsKnown, IsRead, Lawful, placed_of};
ghost use Rattle.cal_run.specs.Lawful.{takes_start_reading};
ghost use Rattle.cal_run.specs.Runs.{taken_by_thread};
ghost use Rattle.cal_run.specs.Steps.{previous_after, state_after, taken_in};
ghost use Rattle.cal_script.specs.declared.journal.Journal.{Journal};
ghost use Rattle.cal_script.specs.declared.journal.LineNote.{LineNote};
ghost use Rattle.cal_script.specs.declared.journal.Placed.{Placed};
ghost use Rattle.cal_script.specs.declared.journal.ThreadNote.{ThreadNote};
ghost use Rattle.cal_script.specs.declared.script.Channel.{Channel};
ghost use Rattle.cal_script.specs.declared.script.Line.{Line};
ghost use Rattle.cal_script.specs.declared.script.Script.{Script};
ghost use Rattle.cal_words.specs.declared.op.OpRec.{OpRec};
ghost use Rattle.cal_words.specs.declared.sort.OpSort.{OpSort};

/// The law of the start: before its first line a thread knows nothing of the history, and its note
/// keeps the rules if it has the start reading as due.
pub fn start_law()
    ensures { (script : Script) (real : Bool) (thread : ℕ) (start : Option ℕ)
        → IsRead script (known_journal real []) (takes_start_reading script) 0 start
        → HasNoted script real [] thread [] (started start) }
{}

/// The law of the next line: where a thread's notes keep the rules, and so does its next line by
/// what the thread knows of the history then, the notes with that line's keep them. For a running
/// thread this comes from what it learned by the line.
pub fn next_line_law()
    ensures rules { (script : Script) (real : Bool) (h more : List Placed) (thread : ℕ)
        (ls : List Line) (note : ThreadNote) (line : Line) (n : LineNote)
        → KeepsRules script real h thread ls note
        → LineKeeps script (known_journal real (h ++ more))
        (next_line script h thread ls note line n)
        → placed_of thread more ≡ number_placed script (length ls + 1) line
        → KeepsRules script real (h ++ more) thread (ls ++ line ∷ []) (with_line note n) }
    ensures running { (script : Script) (real : Bool) (h more : List Placed) (thread : ℕ)
        (ls : List Line) (note : ThreadNote) (line : Line) (n : LineNote)
        → HasNoted script real h thread ls note
        → RunsNext script real h more (next_line script h thread ls note line n)
        → HasNoted script real (h ++ more) thread (ls ++ line ∷ []) (with_line note n) }
    ensures state { (script : Script) (real : Bool) (h more : List Placed) (thread : ℕ)
        (ls : List Line) (note : ThreadNote) (line : Line) (n : LineNote)
        → KeepsRules script real h thread ls note
        → state_behind script (h ++ more) (ls ++ line ∷ []) (with_line note n)
        ≡ state_after script (h ++ more) line n (state_behind script h ls note) }
{}

/// The law of more history: what keeps the rules by a beginning of the history keeps them by a
/// longer one, if no operation behind it is the thread's; and the thread's state is the same.
pub fn more_history_law()
    ensures rules { (script : Script) (real : Bool) (h more : List Placed) (thread : ℕ)
        (ls : List Line) (note : ThreadNote) → KeepsRules script real h thread ls note
        → OfOthers thread more → KeepsRules script real (h ++ more) thread ls note }
    ensures state { (script : Script) (real : Bool) (h more : List Placed) (thread : ℕ)
        (ls : List Line) (note : ThreadNote) → KeepsRules script real h thread ls note
        → state_behind script (h ++ more) ls note ≡ state_behind script h ls note }
{}

/// The law of the whole history, as the first seat has seen it. Its operations are process lines of
/// the script. What a thread has seen whose seat was joined is a beginning of it, behind which no
/// operation is the thread's, if it has seen all that it published.
pub fn whole_history_law()
    ensures known { (script : Script) (plan : Plan OpSort) (v : View OpSort) (all : List OpRec)
        → IsSound op_law plan v → HasSeen plan.shape.slots v all
        → All (IsOpOf script) plan.sort.ops → All (IsKnown script) (history_of all) }
    ensures own { (plan : Plan OpSort) (v : View OpSort) (thread : ℕ) (places : List ℕ)
        (h all : List OpRec) → IsSound op_law plan v → v.number ≡ 0
        → HasJoined v thread places → HasSeen plan.shape.slots v h
        → HasSeen plan.shape.slots v all → length h ≤ length all
        → ((place : ℕ) → 0 < times place places → place < length h)
        → Begins thread (history_of h) (history_of all) }
{}

/// The law of the end: where each thread's notes of all its lines keep the rules by a beginning of
/// the history, behind which nothing is that thread's, the whole history is the script's, and the
/// holder of each busy flush has merged, the notes and the history are a lawful journal; and the
/// threads of every lawful journal are so.
pub fn together_law()
    ensures lawful { (script : Script) (journal : Journal) → HaveEnded script journal
        → Lawful script journal }
    ensures ended { (script : Script) (journal : Journal) → Lawful script journal
        → HaveEnded script journal }
{}

/// The law of snapshots: what a channel takes of a thread's lines is the same by what the thread
/// knows of the history and by more. With the next line comes what that line takes, and the
/// channel's last reading is then the line's, or that of before.
pub fn same_snapshots_law()
    ensures same { (script : Script) (real : Bool) (h more : List Placed) (thread : ℕ)
        (ls : List Line) (note : ThreadNote) (channel : Channel)
        → KeepsRules script real h thread ls note
        → taken_by_thread script (h ++ more) channel (ls, note)
        ≡ taken_by_thread script h channel (ls, note) }
    ensures next { (script : Script) (real : Bool) (h more : List Placed) (thread : ℕ)
        (ls : List Line) (note : ThreadNote) (line : Line) (n : LineNote) (channel : Channel)
        → KeepsRules script real h thread ls note
        → taken_by_thread script (h ++ more) channel (ls ++ line ∷ [], with_line note n)
        ≡ taken_by_thread script h channel (ls, note)
        ++ taken_in script (h ++ more) line n (state_behind script h ls note) channel
        (previous_behind script h channel ls note) }
    ensures previous { (script : Script) (real : Bool) (h more : List Placed) (thread : ℕ)
        (ls : List Line) (note : ThreadNote) (line : Line) (n : LineNote) (channel : Channel)
        → KeepsRules script real h thread ls note
        → previous_behind script (h ++ more) channel (ls ++ line ∷ []) (with_line note n)
        ≡ previous_after script (h ++ more) line n (state_behind script h ls note) channel
        (previous_behind script h channel ls note) }
{}
