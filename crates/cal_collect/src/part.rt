//! What senders hand over.

use cal_table::Table;

/// What a thread took for a channel since it last flushed it, with the channel's number.
#[derive(Drop)]
pub struct Part {
    pub channel: u32,
    pub table: Table,
}
