//! Histories of 1 to 8 slots with arenas of 4 to 40 words, to which two threads append one behind
//! the other until they are refused. After each line, also one that is refused, another seat reads
//! what was appended and no more.
ghost use Rattle.std.specs.Prelude.{◌≡◌, ◌+◌, ◌<◌, ◌≤◌, [], IfSome, length};
ghost use Rattle.std.specs.List.{Contains};
ghost use Rattle.cal_once.specs.Seats.{view};
ghost use Rattle.cal_once.specs.Views.{first_seat};
ghost use Rattle.cal_plog.specs.History.{OwnBefore};
ghost use Rattle.cal_plog.specs.Seats.{IsLogSeat, ops_of, plan_of, slots_of};

use crate::room::{Fate, Room};
use cal_once::Shape;
use cal_plog::{LogFull, LogSeat, PLog};
use cal_value::{OutOfMemory, Seq};
use cal_words::{OpCode, OpRec};
use std::alloc::Global;

/// How many words the record of an operation has.
const WORDS: u64 = 7;

/// What there should be: the room that is left, and the operations that were appended.
#[derive(Drop)]
struct Wanted {
    room: Room,
    ops: Seq<OpRec>,
}

/// A size with its first wrong line.
#[derive(Clone, Copy, Debug, PartialEq, Eq)]
struct Wrong {
    slots: u64,
    words: u64,
    line: (u32, u32),
}

/// Adds nine operations of a thread.
fn put_ops(thread: u32, ops: &mut Vec<OpRec>) -> Result<(), OutOfMemory> {
    for line in 1..10 {
        ops.push(OpRec {
            thread,
            line,
            code: OpCode::Set,
            attr: 3,
            value: line,
        })?;
    }
    Ok(())
}

/// The operations of the threads 1 and 2.
fn all_ops(alloc: Global) -> Result<Vec<OpRec>, OutOfMemory> {
    let mut ops = Vec::new(alloc);
    put_ops(1, &mut ops)?;
    put_ops(2, &mut ops)?;
    Ok(ops)
}

/// The operation of a thread's line, if it is listed where it should.
fn op_at(ops: &[OpRec], thread: u32, line: u32) -> Option<OpRec>
    requires thread { (1 ≤ thread) × (thread ≤ 2) }
    requires line { (1 ≤ line) × (line ≤ 9) }
    ensures { IfSome result (λ op. Contains ops.now op × (op.thread ≡ thread) × (op.line ≡ line)) }
{
    let place = (9 * (thread - 1) + line - 1) as usize;
    if place >= ops.len() {
        return None;
    }
    let op = ops[place];
    if op.thread != thread || op.line != line {
        return None;
    }
    Some(op)
}

/// The answer to an operation that comes at this place, if there is room for it.
fn answer_of(fate: Fate, place: u64) -> Result<u64, LogFull> {
    match fate {
        Fate::Put => Ok(place),
        Fate::RowsFull => Err(LogFull::RowsFull),
        Fate::ArenaFull { used, need } => Err(LogFull::ArenaFull { used, need }),
    }
}

/// Appends an operation of a seat's thread.
fn append(log: &PLog, seat: &mut LogSeat, op: OpRec) -> Result<u64, LogFull>
    requires seat { IsLogSeat log.now seat.old }
    requires among { Contains (ops_of log.now) op }
    requires thread { (view seat.old).number ≡ op.thread + 1 }
    requires line { OwnBefore (slots_of log.now) (view seat.old) op.line }
    ensures seat { IsLogSeat log.now seat.new }
    ensures thread { (view seat.new).number ≡ op.thread + 1 }
    ensures line { OwnBefore (slots_of log.now) (view seat.new) (op.line + 1) }
{
    log.append(seat, op, 0)
}

/// Whether a seat reads these operations, and none behind them.
fn reads(log: &PLog, seat: &mut LogSeat, slots: u64, ops: &[OpRec]) -> bool
    requires seat { IsLogSeat log.now seat.old }
    requires slots { (slots ≡ slots_of log.now) × (slots ≤ 8) }
    ensures { IsLogSeat log.now seat.new }
{
    let mut all = true;
    for place in 0..slots + 1 {
        let read = log.next(seat, place);
        all = all && read == ops.get(place as usize).copied();
    }
    all
}

/// Whether an operation is answered as there is room for it, and a seat reads all then.
fn is_right(
    log: &PLog,
    reader: &mut LogSeat,
    seat: &mut LogSeat,
    op: OpRec,
    slots: u64,
    wanted: &mut Wanted,
) -> Result<bool, OutOfMemory>
    requires slots { (slots ≡ slots_of log.now) × (slots ≤ 8) }
    requires reader { IsLogSeat log.now reader.old }
    requires seat { IsLogSeat log.now seat.old }
    requires among { Contains (ops_of log.now) op }
    requires thread { (view seat.old).number ≡ op.thread + 1 }
    requires line { OwnBefore (slots_of log.now) (view seat.old) op.line }
    ensures reader { IsLogSeat log.now reader.new }
    ensures seat { IsLogSeat log.now seat.new }
    ensures thread { (view seat.new).number ≡ op.thread + 1 }
    ensures line { OwnBefore (slots_of log.now) (view seat.new) (op.line + 1) }
{
    let place = wanted.room.filled;
    let answer = answer_of(wanted.room.put(WORDS), place);
    let found = append(log, seat, op);
    if answer.is_ok() {
        wanted.ops.push(op)?;
    }
    let read = reads(log, reader, slots, wanted.ops.as_slice());
    Ok(found == answer && read)
}

/// The first wrong line of a thread's nine.
fn wrong_line(
    log: &PLog,
    reader: &mut LogSeat,
    seat: &mut LogSeat,
    thread: u32,
    ops: &[OpRec],
    wanted: &mut Wanted,
    slots: u64,
) -> Result<Option<(u32, u32)>, OutOfMemory>
    requires slots { (slots ≡ slots_of log.now) × (slots ≤ 8) }
    requires ops { ops.now ≡ ops_of log.now }
    requires reader { IsLogSeat log.now reader.old }
    requires seat { IsLogSeat log.now seat.old }
    requires thread { (1 ≤ thread) × (thread ≤ 2) × ((view seat.old).number ≡ thread + 1) }
    requires none { (view seat.old).published ≡ [] }
    ensures reader { IsLogSeat log.now reader.new }
    ensures seat { IsLogSeat log.now seat.new }
{
    for line in 1..10 {
        let Some(op) = op_at(ops, thread, line) else {
            return Ok(Some((thread, line)));
        };
        if !is_right(log, reader, seat, op, slots, wanted)? {
            return Ok(Some((thread, line)));
        }
    }
    Ok(None)
}

/// A seat for a thread.
fn seat_for(log: &PLog, first: &mut LogSeat, thread: u32) -> LogSeat
    requires seat { IsLogSeat log.now first.old }
    requires first { (view first.old).number ≡ 0 }
    requires others { length (view first.old).others ≡ thread }
    requires left { thread + 1 < (plan_of log.now).shape.arenas }
    ensures seats { IsLogSeat log.now first.new × IsLogSeat log.now result }
    ensures first { (view first.new).number ≡ 0 }
    ensures others { length (view first.new).others ≡ thread + 1 }
    ensures thread { (view result).number ≡ thread + 1 }
    ensures none { (view result).published ≡ [] }
{
    log.split(first)
}

/// The first wrong line of one thread, or else of another one, each with an arena of its own.
fn wrong_of_two(
    log: &PLog,
    reader: &mut LogSeat,
    one: &mut LogSeat,
    two: &mut LogSeat,
    ops: &[OpRec],
    wanted: &mut Wanted,
    slots: u64,
) -> Result<Option<(u32, u32)>, OutOfMemory>
    requires slots { (slots ≡ slots_of log.now) × (slots ≤ 8) }
    requires ops { ops.now ≡ ops_of log.now }
    requires reader { IsLogSeat log.now reader.old }
    requires one { IsLogSeat log.now one.old × ((view one.old).number ≡ 2) }
    requires two { IsLogSeat log.now two.old × ((view two.old).number ≡ 3) }
    requires none { ((view one.old).published ≡ []) × ((view two.old).published ≡ []) }
{
    let wrong = wrong_line(log, reader, one, 1, ops, wanted, slots)?;
    if wrong.is_some() {
        return Ok(wrong);
    }
    wanted.room.used = 0;
    wrong_line(log, reader, two, 2, ops, wanted, slots)
}

/// The same of the threads 1 and 2, while the seat of thread 0 reads.
fn wrong_of_seats(
    log: &PLog,
    first: &mut LogSeat,
    ops: &[OpRec],
    wanted: &mut Wanted,
    slots: u64,
) -> Result<Option<(u32, u32)>, OutOfMemory>
    requires slots { (slots ≡ slots_of log.now) × (slots ≤ 8) }
    requires ops { ops.now ≡ ops_of log.now }
    requires first { IsLogSeat log.now first.old × (view first.old ≡ first_seat (plan_of log.now)) }
    requires arenas { (plan_of log.now).shape.arenas ≡ 4 }
{
    let mut reader = seat_for(log, first, 0);
    let mut one = seat_for(log, first, 1);
    let mut two = seat_for(log, first, 2);
    let wrong = wrong_of_two(log, &mut reader, &mut one, &mut two, ops, wanted, slots);
    drop(one);
    drop(two);
    drop(reader);
    wrong
}

/// The first wrong line of a history of this size.
fn wrong_of(alloc: Global, slots: u64, words: u64) -> Result<Option<(u32, u32)>, OutOfMemory>
    requires slots { (1 ≤ slots) × (slots ≤ 8) }
    requires words { words ≤ 40 }
{
    let shape = Shape {
        slots,
        homes: 1,
        arena: words,
        arenas: 4,
    };
    let ops = all_ops(alloc)?;
    let listed = Vec::from_slice(alloc, ops.as_slice())?;
    let (log, mut first) = PLog::new(alloc, shape, Seq::from_vec(listed))?;
    let mut wanted = Wanted {
        room: Room::new(slots, words),
        ops: Seq::new(alloc),
    };
    let wrong = wrong_of_seats(&log, &mut first, ops.as_slice(), &mut wanted, slots);
    drop(first);
    drop(log);
    drop(wanted);
    drop(ops);
    wrong
}

/// The first wrong size of histories of so many slots.
fn wrong_size(alloc: Global, slots: u64) -> Result<Option<Wrong>, OutOfMemory>
    requires { (1 ≤ slots) × (slots ≤ 8) }
{
    for words in 4..41 {
        if let Some(line) = wrong_of(alloc, slots, words)? {
            return Ok(Some(Wrong { slots, words, line }));
        }
    }
    Ok(None)
}

#[test]
fn a_small_history_keeps_what_it_has_at_each_refusal(rt: HostRuntime) {
    for slots in 1..9 {
        let wrong = wrong_size(rt.alloc(), slots);
        assert_eq!(rt; wrong, Ok(None), "the first wrong size");
    }
}
