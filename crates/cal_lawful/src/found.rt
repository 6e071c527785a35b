ghost use Rattle.std.specs.Prelude.{◌≡◌, ◌&&◌, not};
ghost use Rattle.std.specs.List.{list_any};
ghost use Rattle.cal_lawful.specs.Checking.{found_on};
ghost use Rattle.cal_run.specs.Lines.{is_process_line, takes};

use cal_board::Board;
use cal_context::NodeNumber;
use cal_run::{is_accepted, is_process_line, is_read, is_taken, reply_to_line};
use cal_script::{Line, Reply, Script};

/// What a line finds: its reply, but for a flush; whether it looks; whether a reading is due; and
/// the script clock.
#[derive(Clone, Copy, Debug, PartialEq, Eq)]
pub(crate) struct Found {
    pub reply: Option<Reply>,
    pub looks: bool,
    pub due: bool,
    pub clock: u64,
}

/// What a line finds by the board that it acts on.
pub(crate) fn found_on(script: &Script, board: &Board<NodeNumber>, line: Line, clock: u64) -> Found
    ensures { result ≡ found_on script.now board.now line clock }
{
    let reply = reply_to_line(script, line, board);
    let accepted = is_accepted(reply);
    Found {
        reply,
        looks: looks(script, line, accepted),
        due: is_read(script, line, accepted),
        clock,
    }
}

/// Whether a line looks, which is where it takes a snapshot and is no process line.
fn looks(script: &Script, line: Line, accepted: bool) -> bool
    ensures { result ≡ (list_any (λ channel. accepted && takes script.now channel line)
        script.now.channels && not (is_process_line script.now line)) }
{
    is_taken(script, line, accepted) && !is_process_line(script, line)
}
