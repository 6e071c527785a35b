//! The steps at the ends of the channel.
ghost use Rattle.std.specs.Prelude.{◌≡◌, true, Some, None};
ghost use Rattle.crossbeam_channel.specs.Claims.{IsSeatAt, view};
ghost use Rattle.crossbeam_channel.specs.Ends.{receives_on, sends_on};
ghost use Rattle.cal_mail.specs.declared.mail.Mail.{Mail as AMail};
ghost use Rattle.cal_mail.specs.Passes.{cut_off, getting, joined, new_sender, posting};
ghost use Rattle.cal_mail.specs.Rule.{Accounts, MayFollow, Tells};
ghost use Rattle.std.specs.Prelude.{List};

use crate::rule::{Cut, Get, InOrder, Meet, Post, Settle};
use crate::{Mail, SendLaw, View};
use crossbeam_channel::{Pass, RuledReceiver, RuledSender};
use std::sync::Wait;

/// A sender's end of the channel. The collector has one too, since only such an end cuts, joins and
/// reads passes.
pub(crate) type SendEnd<T, L> = RuledSender<Mail<T>, View<T>, InOrder<L>>;

/// The collector's end of the channel.
pub(crate) type ReceiveEnd<T, L> = RuledReceiver<Mail<T>, View<T>, InOrder<L>>;

/// Sends a mail, and waits for room. A mail that the channel hands back is sent again.
pub(crate) fn post<Q: Wait, T: Drop, L: SendLaw<T>>(
    wait: &Q,
    end: &SendEnd<T, L>,
    pass: &mut Pass<Mail<T>, View<T>>,
    mut mail: Mail<T>,
)
    requires at { IsSeatAt (sends_on end.now) pass.old }
    requires live { (view pass.old).live ≡ true }
    requires own { (view pass.old).sender ≡ Some mail.sender }
    requires lawful { MayFollow L.may_send (view pass.old).sent mail.part }
    ensures at { IsSeatAt (sends_on end.now) pass.new }
    ensures posted { view pass.new ≡ posting mail (view pass.old) }
{
    for _ in wait.forever() {
        match end.send_as::<Post, Q>(wait, pass, mail) {
            Ok(()) => return,
            Err(error) => mail = error.into_inner(),
        }
    }
    unreachable!()
}

/// Receives a mail, and waits for one.
pub(crate) fn get<Q: Wait, T: Drop, L: SendLaw<T>>(
    wait: &Q,
    end: &ReceiveEnd<T, L>,
    pass: &mut Pass<Mail<T>, View<T>>,
) -> Mail<T>
    requires at { IsSeatAt (receives_on end.now) pass.old }
    requires live { (view pass.old).live ≡ true }
    requires collects { (view pass.old).sender ≡ None }
    ensures at { IsSeatAt (receives_on end.now) pass.new }
    ensures got { view pass.new ≡ getting result (view pass.old) }
    ensures tells { Tells L.may_send (view pass.old) result }
{
    for _ in wait.forever() {
        if let Ok(mail) = end.recv_as::<Get<L>, Q>(wait, pass) {
            return mail;
        }
    }
    unreachable!()
}

/// A pass for the next sender.
pub(crate) fn cut<T: Drop, L: SendLaw<T>>(
    end: &SendEnd<T, L>,
    pass: &mut Pass<Mail<T>, View<T>>,
) -> Pass<Mail<T>, View<T>>
    requires at { IsSeatAt (sends_on end.now) pass.old }
    requires live { (view pass.old).live ≡ true }
    requires collects { (view pass.old).sender ≡ None }
    ensures at { IsSeatAt (sends_on end.now) pass.new × IsSeatAt (sends_on end.now) result }
    ensures cut { view pass.new ≡ cut_off (view pass.old) }
    ensures new { view result ≡ new_sender (view pass.old) }
{
    end.another::<Cut>(pass)
}

/// Takes in a sender's pass.
pub(crate) fn take_in<T: Drop, L: SendLaw<T>>(
    end: &SendEnd<T, L>,
    pass: &mut Pass<Mail<T>, View<T>>,
    other: Pass<Mail<T>, View<T>>,
)
    requires at { IsSeatAt (sends_on end.now) pass.old × IsSeatAt (sends_on end.now) other }
    requires live { ((view pass.old).live ≡ true) × ((view other).live ≡ true) }
    requires collects { (view pass.old).sender ≡ None }
    ensures at { IsSeatAt (sends_on end.now) pass.new }
    ensures joined { view pass.new ≡ joined (view pass.old) (view other) }
{
    end.absorb::<Meet>(pass, other)
}

/// Compares what was received, and what the channel holds, with what the senders sent.
pub(crate) fn settle<T: Drop, L: SendLaw<T>>(end: &SendEnd<T, L>, pass: &mut Pass<Mail<T>, View<T>>)
    requires at { IsSeatAt (sends_on end.now) pass.old }
    requires live { (view pass.old).live ≡ true }
    ensures at { IsSeatAt (sends_on end.now) pass.new }
    ensures same { view pass.new ≡ view pass.old }
    ensures accounts { (items : List (AMail T)) × Accounts (view pass.old) items }
{
    end.learn_as::<Settle>(pass)
}
