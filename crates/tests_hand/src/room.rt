//! What a small table of records has room for, by counting.

/// What becomes of a new record.
#[derive(Clone, Copy, Debug, PartialEq, Eq)]
pub(crate) enum Fate {
    Put,
    RowsFull,
    ArenaFull { used: u64, need: u64 },
}

/// How many slots a table has, and how many words a seat's arena, and how many of both are in use.
#[derive(Clone, Copy)]
pub(crate) struct Room {
    pub slots: u64,
    pub words: u64,
    pub filled: u64,
    pub used: u64,
}

impl Room {
    /// The room of a new table.
    pub(crate) fn new(slots: u64, words: u64) -> Room {
        Room {
            slots,
            words,
            filled: 0,
            used: 0,
        }
    }

    /// Puts a new record of so many words, if there is room.
    pub(crate) fn put(&mut self, need: u64) -> Fate {
        let used = self.used;
        if self.filled == self.slots {
            return Fate::RowsFull;
        }
        if need > self.words.saturating_sub(used) {
            return Fate::ArenaFull { used, need };
        }
        self.filled = self.filled.saturating_add(1);
        self.used = used.saturating_add(need);
        Fate::Put
    }
}
