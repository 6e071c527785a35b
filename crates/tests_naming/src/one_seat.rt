//! Declarations of one seat, by worked rows.
ghost use Rattle.std.specs.Prelude.{◌≤◌};
ghost use Rattle.cal_names.specs.Kept.{IsNameSeat};
ghost use Rattle.cal_once.specs.Layout.{IsShape};

use cal_names::{Declared, NameSeat, Names, NamesFull, kept_for_good, one_declaration_each};
use cal_once::Shape;
use cal_value::{Kind, OutOfMemory};
use std::alloc::Global;
use std::process::Abort;

/// What a declaration is answered.
type Answer = Result<Declared, NamesFull>;

fn same(place: u64) -> Answer {
    Ok(Declared::Same { place })
}

fn different(place: u64, kind: Kind, props: u32) -> Answer {
    Ok(Declared::Different { place, kind, props })
}

// A name of 200 bytes, the longest.
const LONG: &str = "0123456789012345678901234567890123456789012345678901234567890123456789\
    0123456789012345678901234567890123456789012345678901234567890123456789\
    012345678901234567890123456789012345678901234567890123456789";

// What is answered to five declarations: `a` of kind `int` twice, with another between them, then
// `b`, and then the longest name with the greatest properties.
fn five(names: &Names, seat: &mut NameSeat) -> [Answer; 5]
    requires { IsNameSeat names.now seat.old }
{
    let first = names.declare(seat, "a", Kind::Int, 1);
    let other = names.declare(seat, "a", Kind::Uint, 1);
    let again = names.declare(seat, "a", Kind::Int, 1);
    let next = names.declare(seat, "b", Kind::Int, 1);
    let long = names.declare(seat, LONG, Kind::Str, 65535);
    [first, other, again, next, long]
}

// The same of a table of this shape.
fn five_of(alloc: Global, shape: Shape) -> Result<[Answer; 5], OutOfMemory>
    requires { IsShape shape }
{
    let (names, mut seat) = Names::new(alloc, shape)?;
    let answers = five(&names, &mut seat);
    drop(seat);
    drop(names);
    Ok(answers)
}

fn check(rt: &impl Abort, alloc: Global, shape: Shape, wanted: [Answer; 5])
    requires { IsShape shape }
{
    assert_eq!(rt; five_of(alloc, shape), Ok(wanted));
}

// With one home each search begins at slot 0.
#[test]
fn the_first_declaration_is_kept(rt: HostRuntime) {
    let ample = Shape {
        slots: 9,
        homes: 1,
        arena: 64,
        arenas: 1,
    };
    let other = different(0, Kind::Int, 1);
    check(
        &rt,
        rt.alloc(),
        ample,
        [same(0), other, same(0), same(1), same(2)],
    );
    kept_for_good();
    one_declaration_each();
}

#[test]
fn a_table_of_one_slot_keeps_one_name(rt: HostRuntime) {
    let one = Shape {
        slots: 1,
        homes: 1,
        arena: 64,
        arenas: 1,
    };
    let other = different(0, Kind::Int, 1);
    let full = Err(NamesFull::RowsFull);
    check(&rt, rt.alloc(), one, [same(0), other, same(0), full, full]);
}

#[test]
fn a_full_arena_is_told(rt: HostRuntime) {
    let short = Shape {
        slots: 9,
        homes: 1,
        arena: 10,
        arenas: 1,
    };
    let other = different(0, Kind::Int, 1);
    let full = Err(NamesFull::ArenaFull { used: 10, need: 29 });
    check(
        &rt,
        rt.alloc(),
        short,
        [same(0), other, same(0), same(1), full],
    );
}
