//! The end: what was received is what was sent.
ghost use Rattle.std.specs.Prelude.{◌≡◌, true, None, length};
ghost use Rattle.crossbeam_channel.specs.Claims.{IsSeatAt, view};
ghost use Rattle.crossbeam_channel.specs.Ends.{sends_on};
ghost use Rattle.cal_mail.specs.Ends.{AllLastCame, AreEndedOf, IsWhole, mailbox_of, received_by};
ghost use Rattle.cal_mail.specs.Ends.{TakesAll, senders_of};

use crate::ends::{SendEnd, settle, take_in};
use crate::{Collector, Ended, Mail, SendLaw, View};
use crossbeam_channel::Pass;

impl<'a, Q, T: Drop, L: SendLaw<T>> Collector<'a, Q, T, L> {
    /// What was received of each sender is what it had sent when it ended, in its order, each part
    /// once. It costs a step of the channel for each sender, doesn't wait, and takes no memory.
    pub fn finish(self, ended: Vec<Ended<T>>)
        requires came { AllLastCame self }
        requires all { length ended.items ≡ senders_of self }
        requires ended { AreEndedOf (mailbox_of self) ended.items }
        ensures whole { IsWhole (received_by self.entry) ended.items }
    {
        let Collector {
            wait: _,
            end,
            own,
            mut pass,
            last,
        } = self;
        drop(end);
        drop(last);
        take_all(&own, &mut pass, ended);
        settle(&own, &mut pass);
        drop(own);
    }
}

// Takes the passes of all senders in.
fn take_all<T: Drop, L: SendLaw<T>>(
    own: &SendEnd<T, L>,
    pass: &mut Pass<Mail<T>, View<T>>,
    mut ended: Vec<Ended<T>>,
)
    requires at { IsSeatAt (sends_on own.now) pass.old }
    requires live { (view pass.old).live ≡ true }
    requires collects { (view pass.old).sender ≡ None }
    requires all { length ended.items ≡ length (view pass.old).others }
    requires ended { AreEndedOf (sends_on own.now) ended.items }
    ensures at { IsSeatAt (sends_on own.now) pass.new }
    ensures taken { TakesAll ended.items (view pass.old) (view pass.new) }
{
    while let Some(one) = ended.pop() {
        let Ended { pass: other } = one;
        take_in(own, pass, other);
    }
}
