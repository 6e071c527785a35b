//! Receiving parts.
ghost use Rattle.std.specs.Prelude.{◌≡◌, ◌++◌, ◌<◌, ◌∷◌, [], IfSome, IfNone};
ghost use Rattle.cal_mail.specs.Ends.{AllLastCame, mailbox_of, received_by, senders_of};
ghost use Rattle.cal_mail.specs.Messages.{parts_of};

use crate::ends::get;
use crate::{Collector, Mail, Received, SendLaw};
use std::sync::Wait;

impl<'a, Q: Wait, T: Drop, L: SendLaw<T>> Collector<'a, Q, T, L> {
    /// The next part of any sender. None: each sender's last message came, and nothing more will.
    /// It waits while the channel is empty, and takes no memory.
    pub fn receive(&mut self) -> Option<Received<T>>
        ensures received { IfSome result (λ one.
            received_by self.new ≡ received_by self.old ++ one ∷ []) }
        ensures lawful { IfSome result (λ one. (one.sender < senders_of self.old)
            × L.may_send (parts_of one.sender (received_by self.old)) one.part) }
        ensures ended { IfNone result (AllLastCame self.new
            × (received_by self.new ≡ received_by self.old)) }
        ensures stays { (mailbox_of self.new ≡ mailbox_of self.old)
            × (senders_of self.new ≡ senders_of self.old) }
    {
        let wait = self.wait;
        for _ in wait.forever() {
            if self.last.of_all {
                return None;
            }
            if let Some(one) = self.take() {
                return Some(one);
            }
        }
        unreachable!()
    }

    // Receives a mail. None: it was a sender's last message, which is noted.
    fn take(&mut self) -> Option<Received<T>>
        ensures received { IfSome result (λ one.
            received_by self.new ≡ received_by self.old ++ one ∷ []) }
        ensures lawful { IfSome result (λ one. (one.sender < senders_of self.old)
            × L.may_send (parts_of one.sender (received_by self.old)) one.part) }
        ensures last { IfNone result (received_by self.new ≡ received_by self.old) }
        ensures stays { (mailbox_of self.new ≡ mailbox_of self.old)
            × (senders_of self.new ≡ senders_of self.old) }
    {
        let Mail { sender, part } = get(self.wait, &self.end, &mut self.pass);
        match part {
            Some(part) => Some(Received { sender, part }),
            None => {
                self.last.note(sender as usize);
                None
            }
        }
    }
}
