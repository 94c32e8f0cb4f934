//! What a pass knows. No value of these types is made: they are for proofs alone.
use std::collections::LinkedList;

/// How far a pass is in its turn.
pub enum Stage<T, E> {
    /// The first pass, before it knows an origin of the value.
    Fresh(T),
    Outside,
    /// It has drawn this ticket.
    Waiting(u64),
    /// Its number is served, and this is the history so far.
    Called(u64, LinkedList<E>),
    /// It has the value, which stood for this history when it came.
    Inside(u64, LinkedList<E>),
    /// Its event is counted.
    Counted(u64),
    /// The value is back.
    Returned(u64),
    /// Another pass took it back.
    Spent,
}

pub struct View<T, E, O> {
    /// Where the histories of the value begin.
    pub origin: Option<O>,
    /// The history that the pass has seen.
    pub seen: LinkedList<E>,
    /// Another history that it was handed, until the two are compared.
    pub noted: LinkedList<E>,
    /// The tickets that it and the passes that it took back have drawn.
    pub tickets: LinkedList<u64>,
    /// The first pass has the empty name. One that is split off has the count of the splits before it, and then the name
    /// of the pass that it comes from.
    pub name: LinkedList<u64>,
    /// How many passes were split from it.
    pub splits: u64,
    /// The names of those that were split from it, or from a pass that it took back, and that it has not taken back.
    pub out: LinkedList<LinkedList<u64>>,
    pub stage: Stage<T, E>,
}
