ghost use Rattle.std.specs.Prelude.{◌≡◌, ℕ, ◌≤◌, List, ◌++◌, length};
ghost use Rattle.cal_run.specs.History.{board_placed, process_board};
ghost use Rattle.cal_run.specs.Lawful.{Lawful, noted_from};
ghost use Rattle.cal_run.specs.Paths.{own_operation};
ghost use Rattle.cal_run.specs.Plain.{plain};
ghost use Rattle.cal_run.specs.Seeing.{CanBeRead, HaveSeen};
ghost use Rattle.cal_run.specs.Steps.{ThreadState, found_reply, is_read, looks, state_after};
ghost use Rattle.cal_run.specs.Steps.{taken_in};
ghost use Rattle.cal_script.specs.declared.journal.Journal.{Journal};
ghost use Rattle.cal_script.specs.declared.journal.LineNote.{LineNote};
ghost use Rattle.cal_script.specs.declared.journal.Placed.{Placed};
ghost use Rattle.cal_script.specs.declared.script.Channel.{Channel};
ghost use Rattle.cal_script.specs.declared.script.Line as lines;
ghost use Rattle.cal_script.specs.declared.script.Script.{Script};

/// The law of lawful journals: a run can be read off each of them.
pub fn lawful_journal_law()
    ensures { (script : Script) (journal : Journal) → Lawful script journal
        → CanBeRead script journal }
{}

/// The law of the plain journal: it is lawful for every script, so a run can be read off it.
pub fn plain_journal_law()
    ensures lawful { (script : Script) → Lawful script (plain script) }
    ensures read { (script : Script) → CanBeRead script (plain script) }
{}

/// The law of a thread's board: in a run a line does to it what its own operation does, which is
/// nothing where the line is refused or is a process line.
pub fn own_board_law()
    ensures { (script : Script) (history : List Placed) (line : lines.Line) (note : LineNote)
        (state : ThreadState) → (state_after script history line note state).board
        ≡ board_placed script state.board (own_operation script line) }
{}

/// The law of a known history: what a thread knows of the history, which is a front of it, serves as
/// the whole for each line that has seen no more. By it the line's reply is found, and with that
/// whether it takes a reading, what it takes, and its thread's state behind it.
pub fn known_history_law()
    ensures board { (script : Script) (known more : List Placed) (count : ℕ)
        → count ≤ length known
        → process_board script (known ++ more) count ≡ process_board script known count }
    ensures reply { (script : Script) (known more : List Placed) (line : lines.Line)
        (note : LineNote) (state : ThreadState) → note.seen ≤ length known
        → found_reply script (known ++ more) line note state
        ≡ found_reply script known line note state }
    ensures looks { (script : Script) (known more : List Placed) (line : lines.Line)
        (note : LineNote) (state : ThreadState) → note.seen ≤ length known
        → looks script (known ++ more) line note state ≡ looks script known line note state }
    ensures read { (script : Script) (known more : List Placed) (line : lines.Line)
        (note : LineNote) (state : ThreadState) → note.seen ≤ length known
        → is_read script (known ++ more) line note state ≡ is_read script known line note state }
    ensures taken { (script : Script) (known more : List Placed) (line : lines.Line)
        (note : LineNote) (state : ThreadState) (channel : Channel) (previous : ℕ)
        → note.seen ≤ length known
        → taken_in script (known ++ more) line note state channel previous
        ≡ taken_in script known line note state channel previous }
    ensures state { (script : Script) (known more : List Placed) (line : lines.Line)
        (note : LineNote) (state : ThreadState) → note.seen ≤ length known
        → state_after script (known ++ more) line note state
        ≡ state_after script known line note state }
    ensures noted { (script : Script) (known more : List Placed) (thread number before : ℕ)
        (state : ThreadState) (ls : List (lines.Line × LineNote)) → HaveSeen (length known) ls
        → noted_from script (known ++ more) thread number before state ls
        ≡ noted_from script known thread number before state ls }
{}
