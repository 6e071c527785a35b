/// Whether there is memory for the slots of a board from the start.
pub trait Room {
    ghost use Rattle.std.specs.Prelude.{ℕ};

    // for so many slots of each kind
    ghost slots: { ℕ };
}

/// Memory is taken as slots are opened.
#[derive(Clone, Copy, Debug)]
pub struct Growing;

impl Room for Growing {
    ghost slots = { 0 };
}

/// There is memory for all slots that a board may have, so a line takes none.
#[derive(Clone, Copy, Debug)]
pub struct Reserved;

impl Room for Reserved {
    ghost slots = { 64 };
}
