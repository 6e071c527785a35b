ghost use Rattle.std.specs.Prelude.{◌≡◌};
ghost use Rattle.cal_board.specs.Blackboard.{slot_number};

/// An attribute as boards know it: its number, and where its values stand.
#[derive(Clone, Copy, Debug, PartialEq, Eq)]
pub struct AttrRef {
    pub number: u32,
    pub nested: bool,
    pub as_value: bool,
}

impl AttrRef {
    /// The number of the slot in which its values stand.
    #[inline(always)]
    pub(crate) fn slot(self) -> u64
        ensures { result ≡ slot_number self }
    {
        if self.nested {
            0
        } else {
            u64::from(self.number) + 1
        }
    }
}
