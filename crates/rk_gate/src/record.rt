use rk_outside::Bytes;

/// An open record of a journal.
#[derive(Debug, Drop)]
pub struct Record {
    /// Where its gate byte stands in the file.
    pub at: u64,
    /// Its bytes.
    pub payload: Bytes,
}
