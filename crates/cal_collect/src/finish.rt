//! The end: the tables are what the senders sent.
ghost use Rattle.std.specs.Prelude.{◌≡◌, length, map};
ghost use Rattle.cal_mail.specs.Ends.{AllLastCame, AreEndedOf, IsWhole, mailbox_of, received_by};
ghost use Rattle.cal_mail.specs.Ends.{senders_of, sent_in};
ghost use Rattle.cal_collect.specs.Collecting.{HasMerged};
ghost use Rattle.cal_collect.specs.Parts.{AreMergesOf};

use crate::{Part, PartCollector, Shapes};
use cal_mail::Ended;
use cal_table::Table;

impl<'a, Q, S: Shapes> PartCollector<'a, Q, S> {
    /// The table of each channel, by the channels' numbers: the merge of all that the senders sent
    /// for it. It costs a step of the channel for each sender, doesn't wait, and takes no memory.
    pub fn finish(self, ended: Vec<Ended<Part>>) -> Vec<Table>
        requires merged { HasMerged S.shapes self }
        requires came { AllLastCame self.collector }
        requires all { length ended.items ≡ senders_of self.collector }
        requires ended { AreEndedOf (mailbox_of self.collector) ended.items }
        ensures whole { IsWhole (received_by self.entry.collector) ended.items }
        ensures merged { AreMergesOf S.shapes (map sent_in ended.items) result.items }
    {
        let PartCollector {
            wait: _,
            collector,
            tables,
            count: _,
        } = self;
        collector.finish(ended);
        tables
    }
}
