//! What a whole run leaves, and the rows of its channels.
ghost use Rattle.std.specs.Prelude.{◌≡◌, OnOk};
ghost use Rattle.cal_context.specs.Taking.{TakesMore};
ghost use Rattle.cal_context.specs.Tree.{Grows};
ghost use Rattle.cal_ran.specs.Ended.{IsEnded};
ghost use Rattle.cal_records.specs.Records.{run_rows};
ghost use Rattle.cal_replay.specs.Workers.{script_of};

use cal_channel::ThreadChannel;
use cal_context::{Context, Taker};
use cal_delivery::take_rows;
use cal_replay::Shared;
use cal_script::Journal;
use cal_table::Table;
use cal_tree::TreeSeat;
use cal_value::OutOfMemory;
use std::alloc::Global;

/// What a run leaves when all its threads have ended: what they shared, the attributes of the run
/// by their numbers in a context, a seat at the tree that knows what theirs knew, of each thread
/// its channels with their traces, for each channel the tables that count together all that was
/// taken there, and the journal.
#[derive(Drop)]
pub struct EndedRun<'a> {
    pub shared: Shared<'a>,
    pub context: Context,
    pub tree: TreeSeat,
    pub channels: Vec<Vec<ThreadChannel>>,
    pub tables: Vec<Vec<Table>>,
    pub journal: Journal,
}

impl<'a> EndedRun<'a> {
    /// Hands the rows of the run's channels to a taker, in the order of the channels: those of the
    /// records that the plain meaning gives for the script and the journal. The context gets the
    /// nodes and the attributes of results that it lacks, also where memory runs out; after an
    /// `Err` nothing is said of the taker. It takes what `cal_delivery`'s `take_rows` says.
    pub fn take_rows<T: Taker>(&mut self, alloc: Global, taker: &mut T) -> Result<(), OutOfMemory>
        requires ended { IsEnded (script_of self.old.shared) self.old }
        ensures taken { OnOk result (TakesMore (T.has_taken taker.old self.old.context)
            (T.has_taken taker.new self.new.context)
            (run_rows (script_of self.old.shared) self.old.journal)) }
        ensures grows { Grows self.old.context self.new.context }
        ensures same { self.new ≡ record self.old {
          context = self.new.context;
          tree = self.new.tree;
        } }
        ensures about { OnOk result (T.about taker.new ≡ T.about taker.old) }
    {
        take_rows(
            alloc,
            self.shared.common.script,
            &self.shared.common.tree,
            &mut self.tree,
            self.channels.as_slice(),
            self.tables.as_slice(),
            &mut self.context,
            taker,
        )
    }
}
