ghost use Rattle.std.specs.Prelude.{◌≡◌, ◌<◌, ◌≤◌};
ghost use Rattle.cal_gen.specs.Generated.{move_of};

/// What the next line of a thread does.
#[derive(Clone, Copy, Debug, PartialEq, Eq)]
pub enum Move {
    Begin,
    End,
    Iterate,
    Tick,
    Look,
}

impl Move {
    /// The move of a choice from eight, where so many values are open.
    pub fn of(choice: u32, depth: u32) -> Move
        ensures meant { result ≡ move_of choice depth }
        ensures opens { result ≡ Move.Begin → depth < 32 }
        ensures closes { result ≡ Move.End → 0 < depth }
    {
        match choice {
            0..3 if depth < 32 => Move::Begin,
            0..3 => Move::End,
            3..5 if depth > 0 => Move::End,
            3..5 => Move::Begin,
            5 => Move::Iterate,
            6 => Move::Tick,
            _ => Move::Look,
        }
    }
}
