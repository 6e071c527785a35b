//! The laws of what channels have taken. Nothing here is ever run.
ghost use Rattle.std.specs.Prelude.{◌≡◌, ℕ, ◌+◌, Bool, true, false, List, [], ◌∷◌, ◌++◌};
ghost use Rattle.std.specs.Prelude.{Option, Some, length, unwrap_or};
ghost use Rattle.cal_channel.specs.Values.{ChannelValue, new_channel, started_at, with_table};
ghost use Rattle.cal_notes.specs.Notes.{KeepsRules};
ghost use Rattle.cal_notes.specs.Running.{state_behind, with_line};
ghost use Rattle.cal_once.specs.Seats.{view};
ghost use Rattle.cal_once.specs.Views.{KnowsMore};
ghost use Rattle.cal_once.specs.declared.seat.RowSeat.{RowSeat};
ghost use Rattle.cal_process.specs.Operations.{history_of};
ghost use Rattle.cal_process.specs.declared.common.Common.{Common};
ghost use Rattle.cal_replay.specs.Channels.{HasShown, HasShownLines, IsShownAs};
ghost use Rattle.cal_replay.specs.Showing.{IsShown, OnlyReads};
ghost use Rattle.cal_replay.specs.Steps.{RunsLine};
ghost use Rattle.cal_replay.specs.Workers.{IsWorker, lines_done, script_of};
ghost use Rattle.cal_replay.specs.declared.shared.Shared.{Shared};
ghost use Rattle.cal_replay.specs.declared.showing.ShownLine.{ShownLine};
ghost use Rattle.cal_replay.specs.declared.worker.Worker.{Worker};
ghost use Rattle.cal_run.specs.Lines.{is_process_line, line_at};
ghost use Rattle.cal_run.specs.Numbers.{AreNamed};
ghost use Rattle.cal_run.specs.Steps.{ThreadState, is_accepted, reading_of};
ghost use Rattle.cal_run.specs.declared.numbers.Numbers.{Numbers};
ghost use Rattle.cal_script.specs.declared.journal.LineNote.{LineNote};
ghost use Rattle.cal_script.specs.declared.journal.ThreadNote.{ThreadNote};
ghost use Rattle.cal_script.specs.declared.journal.Reply.{Reply};
ghost use Rattle.cal_script.specs.declared.script.Channel.{Channel};
ghost use Rattle.cal_script.specs.declared.script.Line.{Line};
ghost use Rattle.cal_table.specs.Tables.{TableValue, empty_table};
ghost use Rattle.cal_table.specs.declared.shape.TableShape.{TableShape};
ghost use Rattle.cal_thread.specs.Lines.{MeetsOwn, MeetsShared};
ghost use Rattle.cal_thread.specs.Threads.{HasState};
ghost use Rattle.cal_thread.specs.declared.looking.Met.{Met};
ghost use Rattle.cal_thread.specs.declared.thread.Thread.{Thread};
ghost use Rattle.cal_value.specs.declared.attribute.Attribute.{Attribute};
ghost use Rattle.cal_value.specs.declared.record.Rec.{Rec};
ghost use Rattle.cal_words.specs.declared.op.OpRec.{OpRec};
ghost use Rattle.cal_words.specs.declared.sort.NodeSort.{NodeSort};

/// The law of the start: before a thread's first line a channel that was made, and started with the
/// thread's start reading, has taken what the plain meaning of a run takes of no lines, and nothing
/// of it was given.
pub fn shown_at_start_law()
    ensures { (common : Common) (attributes : List Attribute) (seat : RowSeat NodeSort)
        (note : ThreadNote) (channel : Channel) (has_trace : Bool) (shape : Option TableShape)
        → HasShownLines common attributes seat [] [] note channel
        (started_at (new_channel has_trace shape) (unwrap_or note.start 0)) [] }
{}

/// The law of shown lines: a channel that was shown a line more has taken what the plain meaning of
/// a run takes of the lines with that one, by all that the thread has seen then; a part that is
/// merged goes from its table to what was given; and it has taken the same for good, however much
/// the thread's seat learns.
pub fn shown_lines_law()
    ensures line { (common : Common) (attributes : List Attribute) (numbers : Numbers)
        (real : Bool) (thread : Thread) (number : ℕ) (h ops rest : List OpRec) (ls : List Line)
        (note : ThreadNote) (n : LineNote) (shown : ShownLine) (channel : Channel)
        (was is : ChannelValue) (given : List TableValue)
        → KeepsRules common.script.now real (history_of h) number ls note
        → AreNamed attributes common.script.now numbers
        → IsShownAs common thread shown (h ++ ops) rest n
        (state_behind common.script.now (history_of h) ls note)
        → IsShown common numbers thread shown channel was is
        → HasShownLines common attributes thread.tree h ls note channel was given
        → HasShownLines common attributes thread.tree (h ++ ops ++ rest) (ls ++ shown.line ∷ [])
        (with_line note n) channel is given }
    ensures merged { (common : Common) (attributes : List Attribute) (seat : RowSeat NodeSort)
        (c : ChannelValue) (part : TableValue) (given : List TableValue) (all : List Rec)
        (last : ℕ) → c.table ≡ Some part → HasShown common attributes seat c given all last
        → HasShown common attributes seat (with_table c (empty_table part.shape))
        (given ++ part ∷ []) all last }
    ensures learns { (common : Common) (attributes : List Attribute) (was is : RowSeat NodeSort)
        (c : ChannelValue) (given : List TableValue) (all : List Rec) (last : ℕ)
        → KnowsMore (view was) (view is) → HasShown common attributes was c given all last
        → HasShown common attributes is c given all last }
{}

/// The law of lines that are shown as noted: a thread that met a line and has only read the tree
/// since is shown it as its note has it, where the note says how much was seen by the line's end:
/// for a process line one operation more, its own.
pub fn shown_as_noted_law()
    ensures own { (common : Common) (old mid new : Thread) (shown : ShownLine) (met : Met)
        (done : ℕ) (h : List OpRec) (state : ThreadState) (n : LineNote)
        (m : MeetsOwn common old mid shown.line met done h state) → OnlyReads mid new
        → HasState common new (h ++ m.ops) state
        → is_process_line common.script.now shown.line ≡ false → shown.accepted ≡ met.accepted
        → n.seen ≡ mid.process.seen → shown.reading ≡ reading_of n
        → IsShownAs common new shown (h ++ m.ops) [] n state }
    ensures shared { (common : Common) (old mid new : Thread) (shown : ShownLine) (op : OpRec)
        (reply : Option Reply) (h : List OpRec) (state : ThreadState) (n : LineNote)
        (m : MeetsShared common old mid shown.line op reply h state) → OnlyReads mid new
        → HasState common new (h ++ m.ops) state
        → is_process_line common.script.now shown.line ≡ true
        → shown.accepted ≡ is_accepted reply → n.seen ≡ mid.process.seen + 1
        → shown.reading ≡ reading_of n
        → IsShownAs common new shown (h ++ m.ops) (op ∷ []) n state }
{}

/// The law of steps that are told: a channel that was shown a worker's next line, as a step tells
/// it, has taken what the plain meaning of a run takes of the lines done with that one.
pub fn told_step_law()
    ensures { (shared : Shared) (attributes : List Attribute) (numbers : Numbers)
        (at : Thread) (told : ShownLine) (old new : Worker) (l : Line) (note : LineNote)
        (h : List OpRec) (channel : Channel) (was is : ChannelValue) (given : List TableValue)
        → line_at (script_of shared) old.thread.number (length old.note.lines + 1) ≡ Some l
        → new.note ≡ with_line old.note note → new.thread.number ≡ old.thread.number
        → told.line ≡ l → IsWorker shared old h → (r : RunsLine shared at told old new l note h)
        → AreNamed attributes (script_of shared) numbers
        → IsShown shared.common numbers at told channel was is
        → HasShownLines shared.common attributes old.thread.tree h
        (lines_done (script_of shared) old) old.note channel was given
        → HasShownLines shared.common attributes new.thread.tree (h ++ r.ops)
        (lines_done (script_of shared) new) new.note channel is given }
{}
