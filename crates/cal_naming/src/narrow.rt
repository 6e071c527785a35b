//! A narrower table, for names that are declared several times each.
ghost use Rattle.std.specs.Prelude.{◌≡◌};
ghost use Rattle.cal_naming.specs.Told.{IsLaid};
ghost use Rattle.cal_words.specs.Shapes.{IsShape};

use cal_words::Shape;

/// An arena of fewer words is not worth two attempts.
const LEAST_ARENA: u64 = 4_096;

/// The shape with arenas of a quarter, and with an odd number of homes; or the shape itself, where
/// it is small. A name is kept once, however often it is declared, so a quarter mostly does.
pub(crate) fn narrowed(shape: Shape) -> Shape
    requires is_shape { IsShape shape }
    requires laid { IsLaid shape }
    ensures is_shape { IsShape result }
    ensures laid { IsLaid result }
    ensures arenas { result.arenas ≡ shape.arenas }
{
    if shape.arena < LEAST_ARENA {
        return shape;
    }
    let fives = shape.arena / 40 * 2;
    let slots = shape.arenas * fives + 1;
    Shape {
        slots,
        homes: slots,
        arena: fives * 5,
        arenas: shape.arenas,
    }
}
