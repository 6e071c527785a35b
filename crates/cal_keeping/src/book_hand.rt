//! The hand of a thread at the books of a run.
use crate::PartHand;
use cal_channel::ThreadChannel;
use cal_replay::flush;
use cal_script::Reply;
use cal_table::{Book, BookSeat};
use cal_value::OutOfMemory;

/// A thread's seats at the books of a run, one for each channel in their order.
#[derive(Drop)]
pub struct BookHand<'a> {
    pub books: &'a [Book],
    pub seats: Vec<BookSeat>,
}

/// A flush takes a turn at the book of the channel's place.
impl<'a> PartHand for BookHand<'a> {
    ghost use Rattle.cal_keeping.specs.Hands.{HasSameBooks, IsAtBooks, account_in};
    ghost use Rattle.cal_keeping.specs.Hands.{books_later, books_same};

    ghost account = { account_in };

    ghost takes = { IsAtBooks };

    ghost stays = { HasSameBooks };

    ghost same = { books_same };

    ghost later = { books_later };

    fn flush(&mut self, channel: u32, kept: &mut ThreadChannel) -> Result<Reply, OutOfMemory> {
        let place = channel as usize;
        let books = self.books;
        let reply = flush(&books[place], &mut self.seats[place], kept)?;
        Ok(reply)
    }
}
