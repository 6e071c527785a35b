//! What a pass of the channel knows.

use crate::Mail;
use std::collections::LinkedList;

/// What a pass knows. No value of it is made: it stands in contracts alone.
pub struct View<T> {
    /// Whether it still speaks. A pass that the collector has taken in doesn't.
    pub live: bool,
    /// The number of the sender whose pass it is. None: it is the collector's.
    pub sender: Option<u32>,
    /// Of a sender: the messages that it sent, each a part or (None) the last one.
    pub sent: LinkedList<Option<T>>,
    /// Of the collector: what it received.
    pub got: LinkedList<Mail<T>>,
    /// Of the collector: for each sender what it sent, once its pass was taken in.
    pub others: LinkedList<Option<LinkedList<Option<T>>>>,
}
