use crate::Shape;
use std::collections::LinkedList;

/// What a table is told once.
#[derive(Drop)]
pub struct Plan<S> {
    pub shape: Shape,
    pub sort: S,
}

/// What a seat knows. No value of it is made: it stands in contracts alone.
pub struct View<S> {
    /// None: the seat was joined.
    pub plan: Option<Plan<S>>,
    pub number: u64,
    /// How many words of its arena it published.
    pub used: u64,
    /// The words behind those, as far as the next record is written.
    pub draft: LinkedList<u64>,
    /// The places that it published.
    pub published: LinkedList<u64>,
    /// The places that it noted as empty.
    pub looks: LinkedList<u64>,
    /// The words of the table that it has met in filled slots and in their records, each with its
    /// number.
    pub seen: LinkedList<(u64, u64)>,
    /// Of the first seat: for each seat that was split off, the places that it published, once it
    /// was joined.
    pub others: LinkedList<Option<LinkedList<u64>>>,
}
