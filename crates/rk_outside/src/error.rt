// The refusals that many crates share. Where one carries a count of faults, it is the count as the call that
// met the fault left it.

/// There was no memory, and nothing was done.
#[derive(Clone, Copy, Debug, PartialEq, Eq)]
pub struct NoMemory;

/// An object outside failed, and counted it.
#[derive(Clone, Copy, Debug, PartialEq, Eq)]
pub struct Failed;

/// What would have been too long or too many.
#[derive(Clone, Copy, Debug, PartialEq, Eq)]
pub enum What {
    /// A value, in bytes.
    Value,
    /// A batch's operations.
    Ops,
    /// A batch, in bytes.
    Bytes,
}

/// Why a call that looks for memory inside a vault did nothing.
#[derive(Clone, Copy, Debug, PartialEq, Eq)]
pub enum VaultError {
    /// There was no memory.
    Memory,
    /// The vault failed, and counted it.
    Failed,
}

/// Why a sink did not take the whole of what it was given.
#[derive(Clone, Copy, Debug, PartialEq, Eq)]
pub enum SinkError {
    /// The sink keeps its bytes in memory and found no room. It took nothing.
    Memory,
    /// The sink failed, and counted it. It may have taken some of the first bytes.
    Failed,
}

/// Why a source of entries gave none.
#[derive(Clone, Copy, Debug, PartialEq, Eq)]
pub enum SourceError {
    /// There was no memory.
    Memory,
    /// A read failed. The count of the reader or the vault rose in this call.
    ReadFault {
        /// How often it has failed.
        faults: u64,
    },
    /// Bytes that were read are no table, or the file is not there or too short to be one.
    BadTable {
        /// The file's number.
        file: u64,
        /// Where the part that was read stands in the file: its length where it is too short, and 0 where it
        /// is not there or is described as too small for a footer.
        at: u64,
    },
}

/// Why no table was built.
#[derive(Clone, Copy, Debug, PartialEq, Eq)]
pub enum BuildError {
    /// There was no memory.
    Memory,
    /// A read failed. The count of the reader or the vault rose in this call.
    ReadFault {
        /// How often it has failed.
        faults: u64,
    },
    /// A table that was read is not one.
    BadTable {
        /// The file's number.
        file: u64,
        /// Where the part that was read stands in the file, as in [`SourceError::BadTable`].
        at: u64,
    },
    /// A limit would have been passed.
    TooLong {
        /// Of what.
        what: What,
        /// The length or the count that would have been reached.
        have: u64,
        /// The most that is allowed.
        limit: u64,
    },
}

/// Why the store refused a call.
#[derive(Clone, Copy, Debug, PartialEq, Eq)]
pub enum StoreError {
    /// There was no memory.
    Memory,
    /// A change of the disk failed. The vault's count rose in this call.
    WriteFault {
        /// How often the vault has failed.
        faults: u64,
    },
    /// A read failed. The count of the vault or the reader rose in this call.
    ReadFault {
        /// How often it has failed.
        faults: u64,
    },
    /// A journal holds a record that counts and is not well formed, or is empty or not there.
    BadRecord {
        /// The journal's file number.
        file: u64,
        /// Where the record begins, and 0 where the file is empty or not there.
        at: u64,
    },
    /// A limit would have been passed while a table was built.
    TooLong {
        /// Of what.
        what: What,
        /// The length or the count that would have been reached.
        have: u64,
        /// The most that is allowed.
        limit: u64,
    },
    /// A table that was read is not one.
    BadTable {
        /// The file's number.
        file: u64,
        /// Where the part that was read stands in the file, as in [`SourceError::BadTable`].
        at: u64,
    },
    /// An earlier call answered `WriteFault`. Until the store is opened again it changes nothing.
    Halted {
        /// The count that the `WriteFault` carried.
        faults: u64,
    },
    /// The batch has no operation.
    EmptyBatch,
    /// Not enough sequence numbers are left.
    SequenceEnd {
        /// The last number that was given out.
        last: u64,
        /// How many operations the batch has.
        ops: u64,
    },
    /// A memtable is being flushed, and the batch does not fit into the other.
    MemFull {
        /// The bytes in the active memtable.
        active: u64,
        /// The bytes of the batch.
        batch: u64,
    },
    /// No snapshot has this number.
    NoSnap {
        /// The number.
        number: u64,
    },
    /// No further snapshot may be taken.
    TooManySnaps {
        /// How many there are.
        live: u64,
    },
    /// There are files, and what describes a store is not among them.
    NotAStore {
        /// The least number of a file that would be the store's own.
        file: u64,
    },
    /// Not enough file numbers are left.
    FileEnd {
        /// The next number.
        next: u64,
        /// How many tables the job would make.
        tables: u64,
    },
    /// There would be too many tables.
    TooManyTables {
        /// How many stay.
        have: u64,
        /// How many would be added.
        more: u64,
    },
    /// The job is not the one that was handed out.
    StrangeJob {
        /// The job's ticket.
        job: u64,
        /// The ticket of the job that is out, if there is one.
        out: Option<u64>,
    },
}

/// A refusal that hands back the value that was not taken.
#[derive(Debug, Drop)]
pub struct Refused<T> {
    /// Why it was not taken.
    pub error: StoreError,
    /// The value, as it was given.
    pub value: T,
}
