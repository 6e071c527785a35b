//! What all threads have at one place of their lists.
ghost use Rattle.std.specs.Prelude.{◌≡◌, ◌+◌, ◌<◌, ◌++◌, [], ◌∷◌, ℕ, List, All, IfOk, OnOk};
ghost use Rattle.std.specs.Prelude.{length, map, take};
ghost use Rattle.cal_channel.specs.Values.{ChannelValue};
ghost use Rattle.cal_channel.specs.Places.{at_place, lists_of};
ghost use Rattle.cal_handover.specs.Places.{emptied, emptied_at, tables_at};
ghost use Rattle.cal_handover.specs.Places.{tables_of};
ghost use Rattle.cal_replay.specs.Flushing.{SeatOf};

use cal_channel::ThreadChannel;
use cal_table::{BookSeat, Table};
use cal_value::OutOfMemory;
use std::alloc::Global;

/// The seats of all threads at a place, which is the last one of their lists: they are taken out.
pub(crate) fn seats_at(
    alloc: Global,
    place: usize,
    seats: &mut [Vec<BookSeat>],
) -> Result<Vec<BookSeat>, OutOfMemory>
    requires last { All (λ (own : List SeatOf). length own ≡ place + 1) (lists_of seats.old) }
    ensures taken { IfOk result (λ taken. taken.items ≡ at_place place (lists_of seats.old)) }
    ensures left { OnOk result (lists_of seats.new ≡ map (take place) (lists_of seats.old)) }
{
    let mut taken = Vec::with_capacity(alloc, seats.len())?;
    for own in seats.iter_mut() {
        taken.push(own.remove(place))?;
    }
    Ok(taken)
}

/// The tables that the threads' channels have left at a place, thread by thread. Empty ones stay
/// there. After an `Err` nothing is said of the channels. It takes memory and time for the threads.
pub fn tables_at(
    alloc: Global,
    place: usize,
    channels: &mut [Vec<ThreadChannel>],
) -> Result<Vec<Table>, OutOfMemory>
    requires within { All (λ (own : List ChannelValue). place < length own)
        (lists_of channels.old) }
    ensures taken { IfOk result (λ taken. taken.items ≡ tables_at place (lists_of channels.old)) }
    ensures left { OnOk result
        (lists_of channels.new ≡ map (emptied_at place) (lists_of channels.old)) }
{
    let mut taken = Vec::with_capacity(alloc, channels.len())?;
    for own in channels.iter_mut() {
        take_table(&mut own[place], &mut taken)?;
    }
    Ok(taken)
}

// Takes the table of a channel out, if it has one, and leaves an empty one.
fn take_table(channel: &mut ThreadChannel, taken: &mut Vec<Table>) -> Result<(), OutOfMemory>
    ensures taken { OnOk result
        (taken.new.items ≡ taken.old.items ++ tables_of (channel.old ∷ [])) }
    ensures left { OnOk result (channel.new ≡ emptied channel.old) }
{
    if channel.table().is_none() {
        return Ok(());
    }
    let part = channel.part()?;
    taken.push(part)?;
    Ok(())
}
