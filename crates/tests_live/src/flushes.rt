//! How the flushes of a run were answered.

use cal_script::{Journal, Reply, ThreadNote};

/// How many flushes came through, and how many met another thread's turn.
#[derive(Clone, Copy, Debug, PartialEq, Eq)]
pub struct Flushes {
    pub merged: u32,
    pub busy: u32,
}

impl Flushes {
    fn add(&mut self, reply: Reply) {
        match reply {
            Reply::Merged => self.merged = self.merged.saturating_add(1),
            Reply::Busy { holder: _ } => self.busy = self.busy.saturating_add(1),
            _ => {}
        }
    }

    fn add_all(&mut self, thread: &ThreadNote) {
        for note in thread.lines.as_slice() {
            self.add(note.reply);
        }
    }
}

/// Those of a journal.
pub fn flushes_of(journal: &Journal) -> Flushes {
    let mut flushes = Flushes { merged: 0, busy: 0 };
    for thread in journal.threads.as_slice() {
        flushes.add_all(thread);
    }
    flushes
}
