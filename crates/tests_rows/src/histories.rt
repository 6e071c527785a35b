ghost use Rattle.std.specs.Prelude.{◌≡◌, ◌+◌, ◌≤◌, [], ◌∷◌, IfOk};
ghost use Rattle.std.specs.List.{Contains};
ghost use Rattle.cal_once.specs.Seats.{view};
ghost use Rattle.cal_once.specs.Views.{first_seat};
ghost use Rattle.cal_plog.specs.Seats.{IsLogSeat, ops_of, plan_of, slots_of};

use crate::held::is_true;
use cal_once::Shape;
use cal_plog::{LogFull, LogSeat, PLog, history_for_good, one_history, own_operations};
use cal_value::{OutOfMemory, Seq};
use cal_words::{OpCode, OpRec};
use std::alloc::Global;

// The operation of thread 0 on this line.
fn begin(line: u32) -> OpRec
    ensures { (result.thread ≡ 0) × (result.line ≡ line) }
{
    OpRec {
        thread: 0,
        line,
        code: OpCode::Begin,
        attr: 3,
        value: 4,
    }
}

// A history of one slot, for these two operations, and its first seat.
fn one_slot(alloc: Global, one: OpRec, two: OpRec) -> Result<(PLog, LogSeat), OutOfMemory>
    ensures { IfOk result (λ r. IsLogSeat r.0 r.1 × (view r.1 ≡ first_seat (plan_of r.0))
        × (slots_of r.0 ≡ 1) × ((plan_of r.0).shape.arenas ≡ 2) × (ops_of r.0 ≡ one ∷ two ∷ [])) }
{
    let shape = Shape {
        slots: 1,
        homes: 1,
        arena: 64,
        arenas: 2,
    };
    let mut ops = Vec::new(alloc);
    ops.push(one)?;
    ops.push(two)?;
    PLog::new(alloc, shape, Seq::from_vec(ops))
}

// Appends two operations of the seat's thread, the second behind the first.
fn append_both(
    log: &PLog,
    seat: &mut LogSeat,
    one: OpRec,
    two: OpRec,
) -> Result<(u64, Result<u64, LogFull>), LogFull>
    requires seat { IsLogSeat log.now seat.old }
    requires ops { Contains (ops_of log.now) one × Contains (ops_of log.now) two }
    requires thread { ((view seat.old).number ≡ one.thread + 1)
        × ((view seat.old).number ≡ two.thread + 1) }
    requires line { two.line ≡ one.line + 1 }
    requires none { (view seat.old).published ≡ [] }
    ensures { IsLogSeat log.now seat.new }
{
    let place = log.append(seat, one, 0)?;
    Ok((place, log.append(seat, two, place + 1)))
}

// The operations at the first two places.
fn first_two(log: &PLog, seat: &mut LogSeat) -> (Option<OpRec>, Option<OpRec>)
    requires seat { IsLogSeat log.now seat.old }
    requires slot { 1 ≤ slots_of log.now }
    ensures { IsLogSeat log.now seat.new }
{
    (log.next(seat, 0), log.next(seat, 1))
}

// Whether a history of one slot takes the first of these operations alone, and both seats read it.
fn takes_one(log: &PLog, first: &mut LogSeat, one: OpRec, two: OpRec) -> bool
    requires seat { IsLogSeat log.now first.old }
    requires fresh { view first.old ≡ first_seat (plan_of log.now) }
    requires arenas { (plan_of log.now).shape.arenas ≡ 2 }
    requires slot { slots_of log.now ≡ 1 }
    requires ops { ops_of log.now ≡ one ∷ two ∷ [] }
    requires thread { (one.thread ≡ 0) × (two.thread ≡ 0) }
    requires line { two.line ≡ one.line + 1 }
{
    let mut seat = log.split(first);
    let answers = append_both(log, &mut seat, one, two);
    let read = first_two(log, &mut seat);
    log.join(first, seat);
    answers == Ok((0, Err(LogFull::RowsFull)))
        && read == (Some(one), None)
        && first_two(log, first) == (Some(one), None)
}

fn is_taken(alloc: Global) -> Result<bool, OutOfMemory> {
    let (one, two) = (begin(1), begin(2));
    let (log, mut first) = one_slot(alloc, one, two)?;
    let taken = takes_one(&log, &mut first, one, two);
    drop(first);
    drop(log);
    Ok(taken)
}

#[test]
fn a_history_of_one_slot(rt: HostRuntime) {
    is_true(&rt, is_taken(rt.alloc()));
}

fn is_empty(alloc: Global) -> Result<bool, OutOfMemory> {
    let (log, mut first) = one_slot(alloc, begin(1), begin(2))?;
    let read = first_two(&log, &mut first);
    drop(first);
    drop(log);
    Ok(read == (None, None))
}

#[test]
fn a_new_history_is_empty(rt: HostRuntime) {
    is_true(&rt, is_empty(rt.alloc()));
    history_for_good();
    one_history();
    own_operations();
}
