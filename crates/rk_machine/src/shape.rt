/// The sizes of a store.
#[derive(Clone, Copy, Debug, PartialEq, Eq)]
pub struct Shape {
    /// The bytes of the batches in the active memtable.
    pub active: u64,
    /// Those in the frozen memtable; 0 where none is frozen.
    pub frozen: u64,
    /// For each level, how many tables it has.
    pub tables: [u64; 4],
    /// For each level, how many bytes its tables have.
    pub bytes: [u64; 4],
}
