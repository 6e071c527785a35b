//! The channel's rule, and its steps.

use crate::{Mail, SendLaw, View};
use crossbeam_channel::protocol::{Join, Lesson, Outcome, Protocol, Split};
use std::marker::PhantomData;

/// The rule of the channel: what each sender sent is what was received of it, and then what the
/// channel holds of it.
pub struct InOrder<L> {
    law: PhantomData<L>,
}

impl<T, L: SendLaw<T>> Protocol<Mail<T>, View<T>> for InOrder<L> {
    ghost use Rattle.cal_mail.specs.Rule.{Kept};
    ghost use Rattle.cal_mail.specs.Passes.{collecting};

    ghost holds = { Kept L.may_send };

    ghost first = { collecting };
}

/// A sender sends a message.
pub struct Post;

impl<T> Outcome<Mail<T>, View<T>> for Post {
    ghost use Rattle.std.specs.Prelude.{◌≡◌};
    ghost use Rattle.cal_mail.specs.Passes.{posting};

    ghost then = { λ v mail w. w ≡ posting mail v };
}

impl<T> Lesson<Mail<T>, View<T>> for Post {
    ghost use Rattle.std.specs.Prelude.{⊤};

    ghost fact = { λ v items. ⊤ };
}

/// The collector receives a message.
pub struct Get<L> {
    law: PhantomData<L>,
}

impl<T, L: SendLaw<T>> Outcome<Mail<T>, View<T>> for Get<L> {
    ghost use Rattle.std.specs.Prelude.{◌≡◌};
    ghost use Rattle.cal_mail.specs.Passes.{getting};
    ghost use Rattle.cal_mail.specs.Rule.{Tells};

    ghost then = { λ v mail w. (w ≡ getting mail v) × Tells L.may_send v mail };
}

impl<T, L: SendLaw<T>> Lesson<Mail<T>, View<T>> for Get<L> {
    ghost use Rattle.std.specs.Prelude.{⊤};

    ghost fact = { λ v items. ⊤ };
}

/// The collector compares what it received with what the senders sent.
pub struct Settle;

impl<T> Lesson<Mail<T>, View<T>> for Settle {
    ghost use Rattle.cal_mail.specs.Rule.{Accounts};

    ghost fact = { Accounts };
}

/// The collector gives away a pass for the next sender.
pub struct Cut;

impl<T> Split<View<T>> for Cut {
    ghost use Rattle.cal_mail.specs.Passes.{cut_off, new_sender};

    ghost left = { cut_off };

    ghost right = { new_sender };
}

/// The collector takes a sender's pass in.
pub struct Meet;

impl<T> Join<View<T>> for Meet {
    ghost use Rattle.cal_mail.specs.Passes.{joined, spent};

    ghost both = { joined };

    ghost spent = { spent };
}
