use crate::Content;
use std::collections::LinkedList;

/// What a thread's seat has done.
pub struct Account<T> {
    /// The parts that it gave.
    pub given: LinkedList<T>,
    /// The threads whose turns it met.
    pub met: LinkedList<u32>,
    /// How often it gave its own turn up.
    pub given_up: u64,
}

/// A turn that is held: the content as it was when the turn was got, and the part to be given.
pub struct Turn<T> {
    pub copy: Content<T>,
    pub part: T,
}

/// What a seat knows. No value of it is made: it stands in contracts alone.
pub struct View<T, Q> {
    /// The shape of the tables. None: the seat was joined.
    pub shape: Option<Q>,
    /// The thread whose seat it is. None: it is the first seat.
    pub thread: Option<u32>,
    pub account: Account<T>,
    pub turn: Option<Turn<T>>,
    /// Of the first seat: for each thread its account, once its seat was joined.
    pub others: LinkedList<Option<Account<T>>>,
}
