//! The collector.
ghost use Rattle.std.specs.Prelude.{◌≡◌, ℕ, true, false, None, length, slice_index_or};
ghost use Rattle.crossbeam_channel.specs.Claims.{IsSeatAt, view};
ghost use Rattle.crossbeam_channel.specs.Ends.{receives_on, sends_on};
ghost use Rattle.cal_mail.specs.Messages.{has_last, of};

use crate::ends::{ReceiveEnd, SendEnd};
use crate::last::Last;
use crate::{Mail, SendLaw, View};
use crossbeam_channel::Pass;

/// Who receives the parts of a mailbox. Contracts see the parts that were received.
#[derive(Drop)]
pub struct Collector<'a, Q, T: Drop, L: SendLaw<T>> {
    pub(crate) wait: &'a Q,
    pub(crate) end: ReceiveEnd<T, L>,
    // Only a sender's end cuts, joins and reads passes.
    pub(crate) own: SendEnd<T, L>,
    pub(crate) pass: Pass<Mail<T>, View<T>>,
    pub(crate) last: Last,
    ghost at: { IsSeatAt (sends_on own) pass },
    ghost one_channel: { receives_on end ≡ sends_on own },
    ghost live: { (view pass).live ≡ true },
    ghost collects: { (view pass).sender ≡ None },
    ghost long: { length last.came.items ≡ length (view pass).others },
    ghost came: { (number : ℕ) → slice_index_or last.came.items number false ≡ true
        → has_last (of number (view pass).got) ≡ true },
}
