use cal_board::Draft;
use cal_script::Line;
use std::alloc::Global;

/// A draft for each kind of line: the snapshots of one kind mostly have one form, so that what
/// stands in its draft is written over in place.
#[derive(Drop)]
pub(crate) struct Drafts {
    begin: Draft,
    end: Draft,
    set: Draft,
    other: Draft,
}

impl Drafts {
    /// No snapshot was made. They take no memory.
    pub fn new(alloc: Global) -> Self {
        Drafts {
            begin: Draft::new(alloc),
            end: Draft::new(alloc),
            set: Draft::new(alloc),
            other: Draft::new(alloc),
        }
    }

    /// The draft for the snapshot of a line.
    #[inline(always)]
    pub fn of(&mut self, line: Line) -> &mut Draft {
        match line {
            Line::Begin { .. } => &mut self.begin,
            Line::End { .. } => &mut self.end,
            Line::Set { .. } => &mut self.set,
            Line::Snapshot | Line::Flush { .. } | Line::Tick { .. } => &mut self.other,
        }
    }
}
