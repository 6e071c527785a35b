//! What a thread has between two lines.
ghost use Rattle.std.specs.Prelude.{◌≡◌, ◌-◌, ◌≤◌, ◌<◌, true, length, map, zip, IfOk, OnOk};
ghost use Rattle.std.specs.Prelude.{[], if◌then◌else◌, slice_index_or, slice_set};
ghost use Rattle.cal_events.specs.Worlds.{Held as held_world};
ghost use Rattle.cal_events.specs.Worlds.{nothing_held, thread_at_start};
ghost use Rattle.cal_run.specs.Adding.{MayHavePlaces};
ghost use Rattle.cal_run.specs.Held.{IsKnown};
ghost use Rattle.cal_run.specs.History.{board_placed};
ghost use Rattle.cal_run.specs.Lines.{clock_after, operation_of};
ghost use Rattle.cal_run.specs.Steps.{reading_of, readings_changed, reply_to_line};
ghost use Rattle.cal_script.specs.declared.journal.LineNote as note_of;
ghost use Rattle.cal_script.specs.declared.journal.ThreadNote as notes_of;
ghost use Rattle.cal_script.specs.Valid.{IsPlaced, IsRunnable};
ghost use Rattle.cal_script.specs.declared.script.Channel as channel_of;
ghost use Rattle.cal_steps.specs.Sights.{CanTake, EndsLine, IsLeft, held_with, shown_at, shown_by};
ghost use Rattle.cal_steps.specs.Sights.{thread_world};

use crate::Sight;
use crate::boards::{operate, process_board, reply_to_line};
use crate::held::Held;
use cal_board::{PathBoard, Readings};
use cal_run::{Operation, attr_ref, clock_after, is_accepted, is_process_line, operation_of};
use cal_script::{Line, LineNote, Placed, Reply, Script};
use cal_value::{OutOfMemory, Rec, Seq};
use cal_world::Turn;
use std::alloc::Global;

/// What a thread has: how many operations of the history it has seen, its board with the readings
/// and its clock, and what each channel has of it.
#[derive(Drop)]
pub struct ThreadState {
    pub(crate) seen: u64,
    pub(crate) board: PathBoard,
    pub(crate) readings: Readings,
    pub(crate) clock: u64,
    pub(crate) channels: Vec<Held>,
}

impl ThreadState {
    /// Before the first line, with the start reading.
    pub(crate) fn new(
        alloc: Global,
        script: &Script,
        start: Option<u64>,
    ) -> Result<ThreadState, OutOfMemory>
        ensures { IfOk result (λ state. (n : notes_of.ThreadNote) → n.start ≡ start
            → thread_world state (record n { lines = [] }) ≡ thread_at_start script.now n) }
    {
        let channels = none_held(alloc, script, start)?;
        Ok(ThreadState {
            seen: 0,
            board: PathBoard::new(alloc),
            readings: Readings::new(alloc),
            clock: 0,
            channels,
        })
    }

    /// What isn't in the book of a channel, which then has it.
    pub(crate) fn hand_over(&mut self, alloc: Global, channel: usize) -> Seq<Rec>
        requires { channel < length self.old.channels.items }
        ensures given { (h : held_world) → result
            ≡ (slice_index_or self.old.channels.items channel h).unflushed }
        ensures kept { (h : held_world) → self.new.channels.items
            ≡ slice_set self.old.channels.items channel
            (record (slice_index_or self.old.channels.items channel h) { unflushed = [] }) }
        ensures seen { self.new.seen ≡ self.old.seen }
        ensures board { self.new.board ≡ self.old.board }
        ensures readings { self.new.readings ≡ self.old.readings }
        ensures clock { self.new.clock ≡ self.old.clock }
    {
        self.channels[channel].hand_over(alloc)
    }

    /// Ends a line, and gives its note: by the history, and by what the thread has seen of it.
    pub(crate) fn end_line(
        &mut self,
        alloc: Global,
        script: &Script,
        history: &[Placed],
        turn: Turn,
    ) -> Result<LineNote, OutOfMemory>
        requires runnable { IsRunnable script.now }
        requires placed { IsPlaced script.now.attributes script.now.channels script.now.values
            turn.line }
        requires known { IsKnown script.now self.old.board }
        requires within { self.old.seen ≤ length history.now }
        requires long { length self.old.channels.items ≡ length script.now.channels }
        ensures { IfOk result (EndsLine script.now history.now turn self.old self.new) }
    {
        let shared = is_process_line(script, turn.line);
        let seen = seen_before(shared, self.seen);
        let process = process_board(alloc, script, history, seen as usize)?;
        let found = self.reply(script, turn.line, shared, &process);
        let note = LineNote {
            reply: found.unwrap_or(turn.note.reply),
            seen: self.seen,
            reading: turn.note.reading,
        };
        let accepted = is_accepted(found);
        self.finish(alloc, script, turn.line, note, shared, accepted, &process)?;
        Ok(note)
    }

    /// The reply to a line, by the board that it acts on.
    fn reply(&self, script: &Script, line: Line, shared: bool, process: &PathBoard) -> Option<Reply>
        ensures { result ≡ reply_to_line script.now
            (if shared then process.now else self.now.board) line }
    {
        if shared {
            reply_to_line(script, line, process)
        } else {
            reply_to_line(script, line, &self.board)
        }
    }

    /// Lets the channels take an accepted line, and makes its change.
    fn finish(
        &mut self,
        alloc: Global,
        script: &Script,
        line: Line,
        note: LineNote,
        shared: bool,
        accepted: bool,
        process: &PathBoard,
    ) -> Result<(), OutOfMemory>
        requires can { accepted ≡ true
            → CanTake script.now (shown_by self.old process.now note) (operation_of line) }
        requires places { MayHavePlaces script.now (operation_of line) }
        requires long { length self.old.channels.items ≡ length script.now.channels }
        ensures { OnOk result
            (IsLeft script.now line note shared accepted process.now self.old self.new) }
    {
        if !accepted {
            return Ok(());
        }
        let board = &self.board;
        let readings = &self.readings;
        let reading = note.reading.unwrap_or(0);
        let channels = &mut self.channels;
        take_all(
            alloc, script, line, board, process, readings, reading, channels,
        )?;
        if shared {
            return Ok(());
        }
        self.change(script, operation_of(line), reading)?;
        self.clock = clock_after(self.clock, line);
        Ok(())
    }

    /// Makes the change of an operation of the thread's own, if there is one.
    fn change(
        &mut self,
        script: &Script,
        op: Option<Operation>,
        reading: u64,
    ) -> Result<(), OutOfMemory>
        requires places { MayHavePlaces script.now op }
        ensures seen { self.new.seen ≡ self.old.seen }
        ensures channels { self.new.channels ≡ self.old.channels }
        ensures clock { self.new.clock ≡ self.old.clock }
        ensures board { OnOk result (self.new.board ≡ board_placed script.now self.old.board op) }
        ensures readings { OnOk result ((note : note_of.LineNote) → reading ≡ reading_of note
            → self.new.readings ≡ readings_changed script.now self.old.readings note op) }
    {
        match op {
            None => Ok(()),
            Some(op) => {
                operate(script, op, &mut self.board)?;
                self.readings
                    .follow(op.code, attr_ref(script, op.attr), reading)
            }
        }
    }
}

/// No channel has anything.
fn none_held(alloc: Global, script: &Script, start: Option<u64>) -> Result<Vec<Held>, OutOfMemory>
    ensures { IfOk result (λ held. held.items
        ≡ map (λ c. nothing_held start) script.now.channels) }
{
    let mut held = Vec::new(alloc);
    for _channel in script.channels.as_slice() {
        held.push(Held::new(alloc, start))?;
    }
    Ok(held)
}

/// How many operations a line takes in, whose thread has seen so many.
fn seen_before(shared: bool, seen: u64) -> u64
    ensures { result ≡ (if shared then seen - 1 else seen) }
{
    if shared { seen.saturating_sub(1) } else { seen }
}

/// Lets each channel take an accepted line.
fn take_all(
    alloc: Global,
    script: &Script,
    line: Line,
    board: &PathBoard,
    process: &PathBoard,
    readings: &Readings,
    reading: u64,
    channels: &mut Vec<Held>,
) -> Result<(), OutOfMemory>
    requires can { CanTake script.now (shown_at board.now process.now readings.now reading)
        (operation_of line) }
    requires long { length channels.old.items ≡ length script.now.channels }
    ensures { OnOk result (channels.new.items
        ≡ map (held_with script.now line (shown_at board.now process.now readings.now reading))
        (zip script.now.channels channels.old.items)) }
{
    for place in 0..channels.len() {
        take_at(
            alloc, script, line, board, process, readings, reading, place, channels,
        )?;
    }
    Ok(())
}

/// Lets the channel of a place take it.
fn take_at(
    alloc: Global,
    script: &Script,
    line: Line,
    board: &PathBoard,
    process: &PathBoard,
    readings: &Readings,
    reading: u64,
    place: usize,
    channels: &mut Vec<Held>,
) -> Result<(), OutOfMemory>
    requires can { CanTake script.now (shown_at board.now process.now readings.now reading)
        (operation_of line) }
    requires channel { place < length script.now.channels }
    requires within { place < length channels.old.items }
    ensures { OnOk result ((c : channel_of.Channel) (h : held_world) → channels.new.items
        ≡ slice_set channels.old.items place
        (held_with script.now line (shown_at board.now process.now readings.now reading)
        (slice_index_or script.now.channels place c, slice_index_or channels.old.items place h))) }
{
    let previous = channels[place].previous();
    let sight = Sight {
        mine: board,
        process,
        readings,
        reading,
        previous,
    };
    let channel = &script.channels.as_slice()[place];
    channels[place].take(alloc, script, channel, line, &sight)
}
