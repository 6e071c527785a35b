//! Handing parts over.
ghost use Rattle.std.specs.Prelude.{◌≡◌, [], ◌∷◌, ◌++◌};
ghost use Rattle.cal_mail.specs.Ends.{IsEndedOf, mailbox_of_sender, number_of, sent_by, sent_in};
ghost use Rattle.cal_collect.specs.Parts.{MaySend, part_of};

use crate::{Part, PartSender, Shapes};
use cal_mail::Ended;
use cal_table::Table;
use std::sync::Wait;

impl<'a, Q: Wait, S: Shapes> PartSender<'a, Q, S> {
    /// Hands a channel's part over. It waits while the channel is full, and doesn't refuse. It
    /// takes no memory.
    pub fn hand(&mut self, channel: u32, table: Table)
        requires lawful { MaySend S.shapes (sent_by self.old.sender) (part_of channel table) }
        ensures sent { sent_by self.new.sender
            ≡ sent_by self.old.sender ++ part_of channel table ∷ [] }
        ensures stays { (mailbox_of_sender self.new.sender ≡ mailbox_of_sender self.old.sender)
            × (number_of self.new.sender ≡ number_of self.old.sender) }
    {
        self.sender.send(Part { channel, table });
    }

    /// Sends the last message. It waits while the channel is full, and doesn't refuse. It takes no
    /// memory. A sender that is dropped without its end is waited for without end.
    pub fn end(self) -> Ended<Part>
        ensures sent { sent_in result ≡ sent_by self.entry.sender }
        ensures ended { IsEndedOf (mailbox_of_sender self.entry.sender)
            (number_of self.entry.sender) result }
    {
        let PartSender { sender } = self;
        sender.end()
    }
}
