//! The hand of a thread whose parts are collected.
ghost use Rattle.std.specs.Prelude.{◌≡◌, None, Some};
ghost use Rattle.cal_live.specs.Sending.{HasEnded, sent_of};

use cal_channel::ThreadChannel;
use cal_collect::{Part, PartSender, Shapes};
use cal_keeping::PartHand;
use cal_mail::Ended;
use cal_script::Reply;
use cal_value::OutOfMemory;
use std::sync::Wait;

/// A thread's sender, or what is left of it once it has sent its last message.
#[derive(Drop)]
pub struct SenderHand<'a, Q, S: Shapes> {
    sender: Option<PartSender<'a, Q, S>>,
    ended: Option<Ended<Part>>,
}

impl<'a, Q: Wait, S: Shapes> SenderHand<'a, Q, S> {
    /// A hand that sends by this sender.
    pub fn new(sender: PartSender<'a, Q, S>) -> SenderHand<'a, Q, S>
        ensures { (result.sender ≡ Some sender.entry) × (result.ended ≡ None) }
    {
        SenderHand {
            sender: Some(sender),
            ended: None,
        }
    }

    /// Sends the last message, where that wasn't done. It waits while the channel is full, and takes
    /// no memory.
    pub fn end(&mut self)
        ensures ended { HasEnded self.old self.new }
    {
        if let Some(sender) = self.sender.take() {
            self.ended = Some(sender.end());
        }
    }

    /// What is left of the sender, if it has ended.
    pub fn into_ended(self) -> Option<Ended<Part>>
        ensures { result ≡ self.entry.ended }
    {
        let SenderHand { sender: _, ended } = self;
        ended
    }
}

/// A flush sends what the channel has taken, and is always merged. It waits while the mailbox is
/// full.
impl<'a, Q: Wait, S: Shapes> PartHand for SenderHand<'a, Q, S> {
    ghost use Rattle.cal_live.specs.Sending.{HasSameHome, IsSendingFor, account_of};
    ghost use Rattle.cal_live.specs.Sending.{home_later, home_same};

    ghost account = { account_of };

    ghost takes = { IsSendingFor S.shapes };

    ghost stays = { HasSameHome };

    ghost same = { home_same };

    ghost later = { home_later };

    fn flush(&mut self, channel: u32, kept: &mut ThreadChannel) -> Result<Reply, OutOfMemory> {
        let Some(sender) = &mut self.sender else {
            unreachable!()
        };
        let part = kept.part()?;
        sender.hand(channel, part);
        Ok(Reply::Merged)
    }
}
