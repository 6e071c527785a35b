//! Laws by which the snapshots of a running thread show numbers of 64 bits alone. Nothing here is
//! ever run.

ghost use Rattle.std.specs.Prelude.{ℕ, ◌<◌, ◌^◌, List, zip, All};
ghost use Rattle.cal_channel.specs.Channels.{CanTake, HasSmallNumber};
ghost use Rattle.cal_channel.specs.SmallNumbers.{HasSaidValues, IsLineOf, first_lines};
ghost use Rattle.cal_channel.specs.SmallNumbers.{sight_behind};
ghost use Rattle.cal_hand.specs.Nodes.{NodeAt};
ghost use Rattle.cal_once.specs.declared.seat.RowSeat.{RowSeat};
ghost use Rattle.cal_run.specs.Held.{Shows};
ghost use Rattle.cal_run.specs.History.{process_board};
ghost use Rattle.cal_run.specs.Lines.{operation_of};
ghost use Rattle.cal_run.specs.Runs.{state_after_lines};
ghost use Rattle.cal_run.specs.Snapshots.{snapshot_of};
ghost use Rattle.cal_run.specs.Steps.{ThreadState, at_start, state_after};
ghost use Rattle.cal_run.specs.declared.moment.Moment.{Moment};
ghost use Rattle.cal_script.specs.Valid.{IsRunnable};
ghost use Rattle.cal_script.specs.declared.journal.LineNote.{LineNote};
ghost use Rattle.cal_script.specs.declared.journal.Placed.{Placed};
ghost use Rattle.cal_script.specs.declared.script.Channel.{Channel};
ghost use Rattle.cal_script.specs.declared.script.Line.{Line};
ghost use Rattle.cal_script.specs.declared.script.Script.{Script};
ghost use Rattle.cal_tree.specs.declared.tree.Tree.{Tree};
ghost use Rattle.cal_words.specs.declared.node.NodeId.{NodeId};
ghost use Rattle.cal_words.specs.declared.sort.NodeSort.{NodeSort};

/// The law of said values: a thread's board has none before the first line, and each line of the
/// script leaves said values alone on it, whatever its note and whatever the history. So a thread
/// that has done its first lines has said values, and so has the process behind any operations.
pub fn said_values_law()
    ensures start { (script : Script) → HasSaidValues script at_start.board }
    ensures line { (script : Script) (history : List Placed) (l : Line) (n : LineNote)
        (state : ThreadState) → IsLineOf script l → HasSaidValues script state.board
        → HasSaidValues script (state_after script history l n state).board }
    ensures lines { (script : Script) (history : List Placed) (ls : List Line)
        (notes : List LineNote) → All (IsLineOf script) ls → HasSaidValues script
        (state_after_lines script history at_start (zip ls notes)).board }
    ensures thread { (script : Script) (history : List Placed) (thread many : ℕ)
        (notes : List LineNote) → IsRunnable script → HasSaidValues script (state_after_lines
        script history at_start (zip (first_lines script thread many) notes)).board }
    ensures process { (script : Script) (history : List Placed) (seen : ℕ) → IsRunnable script
        → HasSaidValues script (process_board script history seen) }
{}

/// The law of small numbers: where a thread's board has said values, all numbers that a snapshot
/// shows on a line of the script are of 64 bits, whatever the thread has seen of the history. So
/// what a moment shows of it can be taken.
pub fn small_numbers_law()
    ensures snapshot { (script : Script) (history : List Placed) (seen : ℕ) (state : ThreadState)
        (reading previous : ℕ) (channel : Channel) (l : Line) → IsRunnable script
        → IsLineOf script l → HasSaidValues script state.board → reading < 2 ^ 64
        → All HasSmallNumber (snapshot_of script
        (sight_behind script history seen state reading previous) channel (operation_of l)).imms }
    ensures can { (script : Script) (history : List Placed) (seen : ℕ) (state : ThreadState)
        (reading previous : ℕ) (channel : Channel) (l : Line) → IsRunnable script
        → IsLineOf script l → HasSaidValues script state.board → reading < 2 ^ 64
        → (tree : Tree) (seat : RowSeat NodeSort) (moment : Moment NodeId)
        → Shows (NodeAt tree seat) script moment
        (sight_behind script history seen state reading previous)
        → CanTake tree seat script moment channel (operation_of l) }
{}
