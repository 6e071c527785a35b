//! What is sent, and what is received.

/// What a sender puts into the channel: a part, or (None) its last message.
#[derive(Drop)]
pub struct Mail<T> {
    pub sender: u32,
    pub part: Option<T>,
}

/// A part, and the number of the sender that sent it.
#[derive(Debug, Drop)]
pub struct Received<T> {
    pub sender: u32,
    pub part: T,
}
