//! What tells the time of a run.
ghost use Rattle.std.specs.Prelude.{ℕ, List, Option, [], ◌∷◌};
ghost use Rattle.cal_base.specs.Told.{Gives};

/// What gives readings, each a number of 64 bits. A thread asks a clock of its own.
pub trait Clock {
    /// The readings given so far, in their order, where it tells.
    ghost given: { Self → Option (List ℕ) };

    /// The next reading, which always comes. A clock may answer anything.
    fn now(&mut self) -> u64
        ensures { Gives (given self.old) (given self.new) (result ∷ []) };
}
