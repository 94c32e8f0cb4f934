// Files of a folder that no longer change.
ghost use Rattle.std.specs.Prelude.{None, length};
ghost use Rattle.rk_outside.specs.Counts.{Counts};

use rk_outside::{Counting, Failed, Sealed};

/// A file of a [`FolderVault`](crate::FolderVault) as it was when it was opened. Its reads never fail, as its bytes are in memory.
#[derive(Debug, Drop)]
pub struct FolderFile {
    pub(crate) bytes: Vec<u8>,
}

/// A reader of such files. It counts its reads, and none of them fails.
#[derive(Debug, Drop)]
pub struct FolderReader {
    pub(crate) reads: u64,
}

impl Counting for FolderReader {
    ghost counts = { λ r. record { faults = 0; reads = r.reads } };

    fn faults(&self) -> u64 {
        0
    }

    fn reads(&self) -> u64 {
        self.reads
    }
}

impl Sealed for FolderFile {
    type Reader = FolderReader;

    ghost held = { λ f. None };

    ghost extent = { λ f. length f.bytes.items };

    ghost told = { λ f. tt };

    fn size(&self) -> u64 {
        self.bytes.len() as u64
    }

    fn read_at(&self, reader: &mut FolderReader, at: u64, out: &mut [u8]) -> Result<usize, Failed> {
        reader.reads = reader.reads.saturating_add(1);
        let from = usize::try_from(at)
            .unwrap_or(usize::MAX)
            .min(self.bytes.len());
        let count = out.len().min(self.bytes.len() - from);
        out[..count].copy_from_slice(&self.bytes[from..from + count]);
        Ok(count)
    }
}
