//! The records of a world.
ghost use Rattle.std.specs.Prelude.{◌≡◌, ◌<◌, ◌++◌, flat_map, length, IfOk, OnOk};
ghost use Rattle.std.specs.List.{enumerate_from};
ghost use Rattle.cal_events.specs.Keeping.{EndsJournal, booked_in, traced_in};
ghost use Rattle.cal_events.specs.Worlds.{book_in, given_by, held_by, thread_in};
ghost use Rattle.cal_records.specs.Records.{records_of};
ghost use Rattle.cal_script.specs.declared.journal.Journal as journals;
ghost use Rattle.cal_steps.specs.Rows.{grouped_rows, records_in, rows_at, traced_rows};

use crate::World;
use crate::groups::group_records;
use crate::part::push_given;
use crate::rows::push_all;
use cal_context::{Context, expand};
use cal_records::put_globals;
use cal_script::{Channel, Script};
use cal_value::{OutOfMemory, Rec, Records, Seq};
use std::alloc::Global;

impl World {
    /// The records of the lines done: of each channel in order its trace, then its groups in their
    /// order; and the globals. The script is that of `new`. It takes time and memory in the
    /// lengths of all paths.
    pub fn records(&self, alloc: Global, script: &Script) -> Result<Records, OutOfMemory>
        ensures rows { IfOk result (λ records. records ≡ records_in script.now self.now) }
        ensures whole { IfOk result (λ records. (journal : journals.Journal)
            → EndsJournal script.now journal self.now
            → records ≡ records_of script.now journal) }
    {
        let rows = self.rows(alloc, script.channels.as_slice())?;
        let mut context = Context::new(alloc);
        let globals = put_globals(alloc, script.globals.as_slice(), &mut context)?;
        let globals = expand(alloc, &context, &globals)?;
        Ok(Records { rows, globals })
    }

    /// The rows of channels.
    fn rows(&self, alloc: Global, channels: &[Channel]) -> Result<Seq<Rec>, OutOfMemory>
        ensures { IfOk result
            (λ rows. rows ≡ flat_map (rows_at self.now) (enumerate_from 0 channels.now)) }
    {
        let mut rows = Seq::new(alloc);
        for place in 0..channels.len() {
            self.push_rows(alloc, &channels[place], place, &mut rows)?;
        }
        Ok(rows)
    }

    /// Adds the rows of a channel.
    fn push_rows(
        &self,
        alloc: Global,
        channel: &Channel,
        place: usize,
        rows: &mut Seq<Rec>,
    ) -> Result<(), OutOfMemory>
        ensures { OnOk result (rows.new ≡ rows.old ++ rows_at self.now (place, channel.now)) }
    {
        self.push_trace(alloc, channel, place, rows)?;
        self.push_groups(alloc, channel, place, rows)?;
        Ok(())
    }

    /// Adds the trace of a channel that has one.
    fn push_trace(
        &self,
        alloc: Global,
        channel: &Channel,
        place: usize,
        rows: &mut Seq<Rec>,
    ) -> Result<(), OutOfMemory>
        ensures { OnOk result
            (rows.new ≡ rows.old ++ traced_rows self.now place channel.now) }
    {
        if !channel.trace {
            return Ok(());
        }
        self.push_traced(alloc, place, rows)
    }

    /// Adds the snapshots that the traces have of a channel, thread by thread.
    fn push_traced(
        &self,
        alloc: Global,
        place: usize,
        rows: &mut Seq<Rec>,
    ) -> Result<(), OutOfMemory>
        ensures { OnOk result (rows.new ≡ rows.old ++ traced_in self.now place) }
    {
        for thread in self.threads.as_slice() {
            thread.push_trace(alloc, place, rows)?;
        }
        Ok(())
    }

    /// Adds the records of the groups of a channel that aggregates.
    fn push_groups(
        &self,
        alloc: Global,
        channel: &Channel,
        place: usize,
        rows: &mut Seq<Rec>,
    ) -> Result<(), OutOfMemory>
        ensures { OnOk result
            (rows.new ≡ rows.old ++ grouped_rows self.now place channel.now) }
    {
        if !channel.aggregate {
            return Ok(());
        }
        let taken = self.booked(alloc, place)?;
        let groups = group_records(alloc, &channel.query, taken)?;
        push_all(groups, rows)
    }

    /// The snapshots that a channel's book has and the threads keep, thread by thread.
    fn booked(&self, alloc: Global, place: usize) -> Result<Seq<Rec>, OutOfMemory>
        ensures { IfOk result (λ taken. taken ≡ booked_in self.now place) }
    {
        let mut taken = Seq::new(alloc);
        for number in 0..self.threads.len() {
            self.push_booked(alloc, place, number, &mut taken)?;
        }
        Ok(taken)
    }

    /// Adds the snapshots that a channel's book has of a thread, and those that the thread keeps.
    fn push_booked(
        &self,
        alloc: Global,
        channel: usize,
        thread: usize,
        taken: &mut Seq<Rec>,
    ) -> Result<(), OutOfMemory>
        requires { thread < length self.now.threads }
        ensures { OnOk result (taken.new ≡ taken.old
            ++ (given_by thread (book_in self.now channel)
            ++ (held_by (thread_in self.now thread) channel).unflushed)) }
    {
        self.push_given(alloc, channel, thread, taken)?;
        self.threads[thread].push_kept(alloc, channel, taken)?;
        Ok(())
    }

    /// Adds what a channel's book has of a thread.
    fn push_given(
        &self,
        alloc: Global,
        channel: usize,
        thread: usize,
        taken: &mut Seq<Rec>,
    ) -> Result<(), OutOfMemory>
        ensures { OnOk result
            (taken.new ≡ taken.old ++ given_by thread (book_in self.now channel)) }
    {
        match self.books.get(channel) {
            None => Ok(()),
            Some(book) => push_given(alloc, thread, book.as_slice(), taken),
        }
    }
}
