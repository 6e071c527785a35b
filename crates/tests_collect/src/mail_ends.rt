//! What the threads of the tests do at a mailbox.
ghost use Rattle.std.specs.Prelude.{◌≡◌};
ghost use Rattle.cal_mail.specs.Ends.{AllLastCame, IsEndedOf, mailbox_of, mailbox_of_sender};
ghost use Rattle.cal_mail.specs.Ends.{number_of, senders_of};

use cal_mail::{AnyPart, Collector, Ended, Sender};
use std::sync::Wait;

/// Sends so many parts, and the last message.
pub fn give<Q: Wait>(mut sender: Sender<'_, Q, u32, AnyPart>, count: u32) -> Ended<u32>
    ensures ended { IsEndedOf (mailbox_of_sender sender.entry) (number_of sender.entry) result }
{
    for part in 0..count {
        sender.send(part);
    }
    sender.end()
}

/// What came of two senders: how many parts of each, and whether each sender's came in order.
#[derive(Clone, Copy, Debug, PartialEq)]
pub struct Got {
    pub counts: [u32; 2],
    pub in_order: bool,
}

impl Got {
    fn note(&mut self, sender: u32, part: u32) {
        if let Some(count) = self.counts.get_mut(sender as usize) {
            self.in_order &= part == *count;
            *count = count.wrapping_add(1);
        }
    }
}

/// Receives until all senders have ended.
pub fn collect<'a, Q: Wait>(
    wait: &Q,
    mut collector: Collector<'a, Q, u32, AnyPart>,
) -> (Collector<'a, Q, u32, AnyPart>, Got)
    ensures came { AllLastCame result.0 }
    ensures stays { (mailbox_of result.0 ≡ mailbox_of collector.entry)
        × (senders_of result.0 ≡ senders_of collector.entry) }
{
    let mut got = Got {
        counts: [0, 0],
        in_order: true,
    };
    for _ in wait.forever() {
        match collector.receive() {
            None => return (collector, got),
            Some(one) => got.note(one.sender, one.part),
        }
    }
    unreachable!()
}
