//! Opening a mailbox.
ghost use Rattle.std.specs.Prelude.{◌≡◌, ◌≤◌, [], true, None, IfOk, length};
ghost use Rattle.crossbeam_channel.specs.Claims.{IsSeatAt, view};
ghost use Rattle.crossbeam_channel.specs.Ends.{sends_on};
ghost use Rattle.cal_mail.specs.Ends.{AreNewSenders, IsSenderOf, mailbox_of, received_by, sent_by};
ghost use Rattle.cal_mail.specs.Ends.{senders_of};
ghost use Rattle.cal_mail.specs.Passes.{collecting, cut_off};

use crate::ends::{SendEnd, cut};
use crate::last::Last;
use crate::{Collector, Mail, SendLaw, Sender, View};
use cal_value::OutOfMemory;
use crossbeam_channel::{Pass, bounded_with};
use std::alloc::Global;
use std::sync::Wait;

/// A mailbox: so many senders, in the order of their numbers, and the collector. The channel has
/// room for so many messages. All wait by the handle. It takes memory, which sending and receiving
/// don't.
pub fn open_mail<'a, Q: Wait, T: Drop, L: SendLaw<T>>(
    wait: &'a Q,
    alloc: Global,
    senders: u32,
    room: u32,
) -> Result<(Vec<Sender<'a, Q, T, L>>, Collector<'a, Q, T, L>), OutOfMemory>
    requires few { senders ≤ 64 }
    requires room { (1 ≤ room) × (room ≤ 1024) }
    ensures senders { IfOk result (λ r. (length r.0.items ≡ senders)
        × AreNewSenders (mailbox_of r.1) r.0.items) }
    ensures collector { IfOk result (λ r. (senders_of r.1 ≡ senders) × (received_by r.1 ≡ [])) }
{
    let (own, end, mut pass) = bounded_with(alloc, room as usize)?;
    let all = cut_all(wait, alloc, &own, &mut pass, senders)?;
    let last = Last::new(alloc, senders)?;
    let collector = Collector {
        wait,
        end,
        own,
        pass,
        last,
    };
    Ok((all, collector))
}

// A new sender, with an end of its own.
fn cut_one<'a, Q, T: Drop, L: SendLaw<T>>(
    wait: &'a Q,
    own: &SendEnd<T, L>,
    pass: &mut Pass<Mail<T>, View<T>>,
    number: u32,
) -> Result<Sender<'a, Q, T, L>, OutOfMemory>
    requires at { IsSeatAt (sends_on own.now) pass.old }
    requires live { (view pass.old).live ≡ true }
    requires collects { (view pass.old).sender ≡ None }
    requires next { length (view pass.old).others ≡ number }
    ensures at { IsSeatAt (sends_on own.now) pass.new }
    ensures cut { IfOk result (λ _. view pass.new ≡ cut_off (view pass.old)) }
    ensures sender { IfOk result (λ one. IsSenderOf (sends_on own.now) number one
        × (sent_by one ≡ [])) }
{
    let end = own.try_clone()?;
    let new = cut(own, pass);
    Ok(Sender {
        wait,
        end,
        pass: new,
        number,
    })
}

// So many new senders.
fn cut_all<'a, Q, T: Drop, L: SendLaw<T>>(
    wait: &'a Q,
    alloc: Global,
    own: &SendEnd<T, L>,
    pass: &mut Pass<Mail<T>, View<T>>,
    count: u32,
) -> Result<Vec<Sender<'a, Q, T, L>>, OutOfMemory>
    requires at { IsSeatAt (sends_on own.now) pass.old }
    requires fresh { view pass.old ≡ collecting }
    ensures at { IsSeatAt (sends_on own.now) pass.new }
    ensures collects { IfOk result (λ _. ((view pass.new).live ≡ true)
        × ((view pass.new).sender ≡ None) × ((view pass.new).got ≡ [])) }
    ensures others { IfOk result (λ _. length (view pass.new).others ≡ count) }
    ensures senders { IfOk result (λ all. (length all.items ≡ count)
        × AreNewSenders (sends_on own.now) all.items) }
{
    let mut all = Vec::new(alloc);
    for number in 0..count {
        all.push(cut_one(wait, own, pass, number)?)?;
    }
    Ok(all)
}
