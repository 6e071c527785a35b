//! A sender.
ghost use Rattle.std.specs.Prelude.{◌≡◌, true, Some, map};
ghost use Rattle.crossbeam_channel.specs.Claims.{IsSeatAt, view};
ghost use Rattle.crossbeam_channel.specs.Ends.{sends_on};
ghost use Rattle.cal_mail.specs.Messages.{parts_among};

use crate::ends::SendEnd;
use crate::{Mail, SendLaw, View};
use crossbeam_channel::Pass;

/// A sender of a mailbox. Contracts see the parts that it sent.
#[derive(Drop)]
pub struct Sender<'a, Q, T: Drop, L: SendLaw<T>> {
    pub(crate) wait: &'a Q,
    pub(crate) end: SendEnd<T, L>,
    pub(crate) pass: Pass<Mail<T>, View<T>>,
    pub(crate) number: u32,
    ghost at: { IsSeatAt (sends_on end) pass },
    ghost live: { (view pass).live ≡ true },
    ghost own: { (view pass).sender ≡ Some number },
    ghost going: { (view pass).sent ≡ map Some (parts_among (view pass).sent) },
}
