ghost use Rattle.std.specs.Prelude.{◌≡◌, ◌<◌, [], ◌∷◌, ◌++◌, IfOk, List};
ghost use Rattle.cal_lawful.specs.Broken.{Row};
ghost use Rattle.cal_lawful.specs.Broken.{Noted};
ghost use Rattle.cal_lawful.specs.Checking.{AreMerged, IsChannel, has_merged, merged_channel};
ghost use Rattle.cal_run.specs.Lawful.{NotedLine};

use cal_script::{Line, LineNote, Reply};
use cal_value::OutOfMemory;
use std::alloc::Global;

/// The most threads and channels that a script has.
const MOST_THREADS: usize = 64;

const MOST_CHANNELS: usize = 16;

/// Of which thread and channel a flush was merged, thread by thread.
#[derive(Drop)]
pub(crate) struct Merged {
    pub marks: Vec<bool>,
}

impl Merged {
    /// None was.
    pub(crate) fn new(alloc: Global) -> Result<Self, OutOfMemory>
        ensures { IfOk result (λ merged. AreMerged [] merged.marks.items) }
    {
        let marks = vec![in alloc; false; MOST_THREADS * MOST_CHANNELS]?;
        Ok(Merged { marks })
    }

    /// Marks a flush of a thread, where it was merged.
    pub(crate) fn mark(&mut self, thread: usize, line: Line, note: LineNote)
        requires within { thread < 64 }
        requires channel { IsChannel (merged_channel line note.reply) }
        ensures { (front : List Row) (n : NotedLine) → n.thread ≡ thread → n.line ≡ line → n.note ≡ note
            → AreMerged front self.old.marks.items
            → AreMerged (front ++ Noted n ∷ []) self.new.marks.items }
    {
        if let Some(channel) = merged_channel(line, note.reply) {
            if let Some(mark) = self
                .marks
                .get_mut(thread * MOST_CHANNELS + channel as usize)
            {
                *mark = true;
            }
        }
    }

    /// Whether a flush of this channel was merged in a thread.
    pub(crate) fn has(&self, thread: usize, channel: usize) -> bool
        ensures { result ≡ has_merged self.now.marks.items thread channel }
    {
        thread < MOST_THREADS
            && channel < MOST_CHANNELS
            && self
                .marks
                .get(thread * MOST_CHANNELS + channel)
                .copied()
                .unwrap_or(false)
    }
}

/// The channel of a flush that was merged.
fn merged_channel(line: Line, reply: Reply) -> Option<u32>
    ensures { result ≡ merged_channel line reply }
{
    match line {
        Line::Flush { channel } => match reply {
            Reply::Merged => Some(channel),
            _ => None,
        },
        _ => None,
    }
}
