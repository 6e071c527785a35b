//! A sender that has ended.
ghost use Rattle.std.specs.Prelude.{◌≡◌, true};
ghost use Rattle.crossbeam_channel.specs.Claims.{view};
ghost use Rattle.cal_mail.specs.Messages.{ended_with, parts_among};

use crate::{Mail, View};
use crossbeam_channel::Pass;

/// A sender that has ended. Contracts see what it sent.
#[derive(Drop)]
pub struct Ended<T> {
    pub(crate) pass: Pass<Mail<T>, View<T>>,
    ghost live: { (view pass).live ≡ true },
    ghost ended: { (view pass).sent ≡ ended_with (parts_among (view pass).sent) },
}
