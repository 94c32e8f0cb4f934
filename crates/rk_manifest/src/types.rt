use rk_key::UserKey;

/// A table as the manifest describes it: its keys are at or above `lo`, and have a prefix below `hi`, or equal to
/// `hi` where `closed` is true.
#[derive(Debug, Drop)]
pub struct TableDesc {
    /// The number of its file.
    pub file: u64,
    /// The length of its file in bytes.
    pub size: u64,
    /// What its keys begin with, without a suffix.
    pub lo: UserKey,
    /// Where its keys end, without a suffix.
    pub hi: UserKey,
    /// Whether there may be keys of the prefix `hi`.
    pub closed: bool,
}

/// A version as the manifest describes it.
#[derive(Debug, Drop)]
pub struct VersionDesc {
    /// The next number that a file gets.
    pub next_file: u64,
    /// The last sequence number whose operation stands in a table, and 0 where none does.
    pub flushed_upto: u64,
    /// The tables of the levels 0 to 3.
    pub levels: Vec<Vec<TableDesc>>,
}
