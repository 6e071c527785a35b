//! Collecting parts.
ghost use Rattle.std.specs.Prelude.{◌≡◌, ◌%◌, ◌^◌, ◌++◌, ◌<◌, ◌∷◌, [], false, IfSome, IfNone, OnOk};
ghost use Rattle.std.specs.Prelude.{length};
ghost use Rattle.cal_mail.specs.Ends.{AllLastCame, mailbox_of, received_by, senders_of};
ghost use Rattle.cal_mail.specs.Messages.{parts_of};
ghost use Rattle.cal_collect.specs.Collecting.{HasMerged};
ghost use Rattle.cal_collect.specs.Parts.{MaySend};

use crate::merging::merge_in;
use crate::{Part, PartCollector, Shapes};
use cal_mail::Received;
use cal_value::OutOfMemory;
use std::sync::Wait;

impl<'a, Q, S: Shapes> PartCollector<'a, Q, S> {
    /// How many parts came, modulo 2^64.
    pub fn received(&self) -> u64
        ensures { result ≡ length (received_by self.now.collector) % 2 ^ 64 }
    {
        self.count
    }
}

impl<'a, Q: Wait, S: Shapes> PartCollector<'a, Q, S> {
    /// Receives until each sender's last message came, and merges each part into its channel's
    /// table. It waits while the channel is empty. An `Err` is want of memory: it comes in the end
    /// too, when all parts came, of which those behind the refused merge were dropped.
    pub fn collect(&mut self) -> Result<(), OutOfMemory>
        requires merged { HasMerged S.shapes self.old }
        ensures merged { OnOk result (HasMerged S.shapes self.new) }
        ensures came { AllLastCame self.new.collector }
        ensures stays { (mailbox_of self.new.collector ≡ mailbox_of self.old.collector)
            × (senders_of self.new.collector ≡ senders_of self.old.collector) }
    {
        let wait = self.wait;
        let mut refused = false;
        for _ in wait.forever() {
            let Some(one) = self.receive() else {
                return if refused { Err(OutOfMemory) } else { Ok(()) };
            };
            if !refused {
                refused = merge_in(&mut self.tables, one.part).is_err();
            }
        }
        unreachable!()
    }

    // The next part of any sender, which is counted. None: each sender's last message came.
    fn receive(&mut self) -> Option<Received<Part>>
        ensures received { IfSome result (λ one. received_by self.new.collector
            ≡ received_by self.old.collector ++ one ∷ []) }
        ensures lawful { IfSome result (λ one. (one.sender < senders_of self.old.collector)
            × MaySend S.shapes (parts_of one.sender (received_by self.old.collector)) one.part) }
        ensures ended { IfNone result (AllLastCame self.new.collector
            × (received_by self.new.collector ≡ received_by self.old.collector)) }
        ensures tables { self.new.tables ≡ self.old.tables }
        ensures stays { (mailbox_of self.new.collector ≡ mailbox_of self.old.collector)
            × (senders_of self.new.collector ≡ senders_of self.old.collector) }
    {
        let one = self.collector.receive()?;
        self.count = self.count.wrapping_add(1);
        Some(one)
    }
}
