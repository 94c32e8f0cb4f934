// What the places hold that a crash leaves free.

#[derive(Clone, Copy, Debug, PartialEq, Eq)]
pub(crate) enum Free {
    // What was read last.
    Kept,
    // What would be there if nothing had been written since the last sync.
    Lost,
    // One byte.
    Filled,
}
