ghost use Rattle.std.specs.Prelude.{◌↔◌, IsTrue};

/// A number, as kernels take and give it: a whole one, or a fixed one in nano-units.
#[derive(Clone, Copy, Debug, PartialEq, Eq)]
pub enum Num {
    Whole(i128),
    Fixed(i128),
}

impl Num {
    ghost use Rattle.cal_agg.specs.Numbers.{IsSmall};

    /// The greatest magnitude that may be added, 2^86.
    pub const MOST: u128 = 1 << 86;

    /// Whether a kernel may take the number.
    pub fn is_small(&self) -> bool
        ensures { IsTrue result ↔ IsSmall self.now }
    {
        let (Num::Whole(number) | Num::Fixed(number)) = self;
        number.unsigned_abs() <= Self::MOST
    }
}
