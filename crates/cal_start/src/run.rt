//! What all threads of a run share.

use cal_context::Context;
use cal_plog::LogSeat;
use cal_replay::Shared;
use cal_run::Numbers;
use cal_table::{Book, BookSeat, TableShape};
use cal_tree::TreeSeat;

/// What all threads of a run share: the script with the tree and the history, the numbers of the
/// run's attributes in a context, and for each channel, in the order of the script, the shape of
/// its tables and its book.
#[derive(Drop)]
pub struct Run<'a> {
    pub shared: Shared<'a>,
    pub context: Context,
    pub numbers: Numbers,
    pub shapes: Vec<TableShape>,
    pub books: Vec<Book>,
}

/// The first seats of a run, from which those of its threads are split off: at the tree, at the
/// history, and at each channel's book. When the threads have ended, their seats are joined here.
#[derive(Drop)]
pub struct FirstSeats {
    pub tree: TreeSeat,
    pub log: LogSeat,
    pub books: Vec<BookSeat>,
}
