//! Sending parts, and the last message.
ghost use Rattle.std.specs.Prelude.{◌≡◌, ◌++◌, ◌∷◌, []};
ghost use Rattle.cal_mail.specs.Ends.{IsEndedOf, mailbox_of_sender, number_of};
ghost use Rattle.cal_mail.specs.Ends.{sent_by, sent_in};

use crate::ends::post;
use crate::{Ended, Mail, SendLaw, Sender};
use std::sync::Wait;

impl<'a, Q: Wait, T: Drop, L: SendLaw<T>> Sender<'a, Q, T, L> {
    /// Sends a part. It waits while the channel is full, and doesn't refuse. It takes no memory.
    pub fn send(&mut self, part: T)
        requires lawful { L.may_send (sent_by self.old) part }
        ensures sent { sent_by self.new ≡ sent_by self.old ++ part ∷ [] }
        ensures stays { (mailbox_of_sender self.new ≡ mailbox_of_sender self.old)
            × (number_of self.new ≡ number_of self.old) }
    {
        let mail = Mail {
            sender: self.number,
            part: Some(part),
        };
        post(self.wait, &self.end, &mut self.pass, mail);
    }

    /// Sends the last message. It waits while the channel is full, and doesn't refuse. It takes no
    /// memory. The collector waits until each sender's last message came: a sender that is dropped
    /// without its end is waited for without end.
    pub fn end(self) -> Ended<T>
        ensures sent { sent_in result ≡ sent_by self.entry }
        ensures ended { IsEndedOf (mailbox_of_sender self.entry) (number_of self.entry) result }
    {
        let Sender {
            wait,
            end,
            mut pass,
            number,
        } = self;
        let mail = Mail {
            sender: number,
            part: None,
        };
        post(wait, &end, &mut pass, mail);
        drop(end);
        Ended { pass }
    }
}
