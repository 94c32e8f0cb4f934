// The limits of the store.

/// The greatest sequence number.
pub const MOST_NUMBER: u64 = 72_057_594_037_927_935;

/// The most bytes of batches in a memtable.
pub const MOST_MEMTABLE_BYTES: u64 = 4_194_304;

/// The most bytes of batches that wait to be written.
pub const MOST_PENDING_BYTES: u64 = 1_048_576;

/// The most snapshots that are live at once.
pub const MOST_SNAPSHOTS: usize = 1000;
