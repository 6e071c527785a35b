ghost use Rattle.std.specs.Prelude.{◌≡◌};
ghost use Rattle.cal_script.specs.Ticks.{number_of_ticks, ticks_of};

const HALF: u64 = 4_294_967_296;

/// The number of a `tick`, in two halves: a line with a `u64` in it takes a third more memory.
#[derive(Clone, Copy, Debug, PartialEq, Eq)]
pub struct Ticks {
    upper: u32,
    lower: u32,
}

impl Ticks {
    /// A number in two halves. Each number has one such form.
    pub fn new(number: u64) -> Ticks
        ensures { result ≡ ticks_of number }
    {
        Ticks {
            upper: (number / HALF) as u32,
            lower: (number % HALF) as u32,
        }
    }

    /// The number that they make.
    pub fn number(self) -> u64
        ensures { result ≡ number_of_ticks self }
    {
        u64::from(self.upper) * HALF + u64::from(self.lower)
    }
}
