//! A flush of a thread's channel into the channel's book.
ghost use Rattle.std.specs.Prelude.{◌≡◌, IfOk, OnErr, Some};
ghost use Rattle.cal_book.specs.Seats.{IsSeatOf, view};
ghost use Rattle.cal_replay.specs.Flushing.{Flushed, LeftByFlush, MayFlush};
ghost use Rattle.cal_table.specs.Tables.{TableValue};

use cal_book::FlushAnswer;
use cal_channel::ThreadChannel;
use cal_script::Reply;
use cal_table::{Book, BookSeat};
use cal_value::OutOfMemory;

/// Flushes what a channel has taken since its last flush: its table is merged into the book, where
/// nobody holds the turn there. Nobody waits. An `Err` leaves the channel, and the seat too or with
/// a turn given up. It costs a merge at most, and takes the memory of an empty table and of the
/// merge.
pub fn flush(
    book: &Book,
    seat: &mut BookSeat,
    channel: &mut ThreadChannel,
) -> Result<Reply, OutOfMemory>
    requires { MayFlush book.now seat.old channel.old }
    ensures seat { IsSeatOf book.now seat.new }
    ensures flushed { IfOk result (λ reply. (part : TableValue) → channel.old.table ≡ Some part
        → Flushed (view seat.old) (view seat.new) channel.old channel.new part reply) }
    ensures left { OnErr result
        (LeftByFlush (view seat.old) (view seat.new) channel.old channel.new) }
{
    let part = channel.part()?;
    match book.flush(seat, part) {
        FlushAnswer::Merged => Ok(Reply::Merged),
        FlushAnswer::Busy { holder, part } => {
            channel.give_back(part);
            Ok(Reply::Busy { holder })
        }
        FlushAnswer::OutOfMemory { part } => {
            channel.give_back(part);
            Err(OutOfMemory)
        }
    }
}
