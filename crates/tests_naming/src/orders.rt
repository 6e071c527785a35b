//! Two seats that declare one name with different contents, in every order of their calls.
ghost use Rattle.std.specs.Prelude.{◌≡◌};
ghost use Rattle.cal_names.specs.Kept.{IsNameSeat};
ghost use Rattle.cal_once.specs.Seats.{view};

use cal_names::{Declared, NameSeat, Names};
use cal_once::Shape;
use cal_value::{Kind, OutOfMemory};
use std::alloc::Global;
use std::process::Abort;

// Room for the declarations of two seats beside the first one.
const SHAPE: Shape = Shape {
    slots: 7,
    homes: 7,
    arena: 10,
    arenas: 2,
};

// The properties of `a` that are kept behind a declaration of it.
fn kept(names: &Names, seat: &mut NameSeat, props: u32) -> Option<u32>
    requires { IsNameSeat names.now seat.old }
    ensures seat { IsNameSeat names.now seat.new }
    ensures number { (view seat.new).number ≡ (view seat.old).number }
{
    match names.declare(seat, "a", Kind::Int, props) {
        Ok(Declared::Same { .. }) => Some(props),
        Ok(
            Declared::Different {
                kind: Kind::Int,
                props,
                ..
            },
        ) => Some(props),
        _ => None,
    }
}

// Whether each declaration is answered by the first of the order. In it a 1 is the first seat's,
// and a 2 the other one's; each declares with its number as the properties.
fn all_keep(names: &Names, first: &mut NameSeat, other: &mut NameSeat, order: [u32; 4]) -> bool
    requires first { IsNameSeat names.now first.old }
    requires other { IsNameSeat names.now other.old }
    ensures first { IsNameSeat names.now first.new }
    ensures number { (view first.new).number ≡ (view first.old).number }
    ensures other { IsNameSeat names.now other.new }
{
    let mut all = true;
    for at in 0..4 {
        let props = order[at];
        let found = if props == 1 {
            kept(names, first, props)
        } else {
            kept(names, other, props)
        };
        all = all && found == Some(order[0]);
    }
    all
}

// Whether the first of the order is kept, for each seat, and for the first one behind the join.
fn keeps_the_first(alloc: Global, order: [u32; 4]) -> Result<bool, OutOfMemory> {
    let (names, mut first) = Names::new(alloc, SHAPE)?;
    let mut other = names.split(&mut first);
    let all = all_keep(&names, &mut first, &mut other, order);
    names.join(&mut first, other);
    let stays = kept(&names, &mut first, 9) == Some(order[0]);
    drop(first);
    drop(names);
    Ok(all && stays)
}

fn check(rt: &impl Abort, alloc: Global, order: [u32; 4]) {
    assert_eq!(rt; keeps_the_first(alloc, order), Ok(true), "{order:?}");
}

#[test]
fn the_first_declaration_is_kept_in_every_order(rt: HostRuntime) {
    check(&rt, rt.alloc(), [1, 1, 2, 2]);
    check(&rt, rt.alloc(), [1, 2, 1, 2]);
    check(&rt, rt.alloc(), [1, 2, 2, 1]);
    check(&rt, rt.alloc(), [2, 1, 1, 2]);
    check(&rt, rt.alloc(), [2, 1, 2, 1]);
    check(&rt, rt.alloc(), [2, 2, 1, 1]);
}
