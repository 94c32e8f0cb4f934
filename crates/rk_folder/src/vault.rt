// A folder as a vault.
ghost use Rattle.std.specs.Prelude.{◌≡◌, ◌+◌, ◌^◌, IfOk};
ghost use Rattle.std.proofs.lemmas.Bool.{false≢true};
ghost use Rattle.rk_outside.specs.Disks.{untold};

use crate::faults::Faults;
use crate::files::{Folder, numbers_of, sync_folder};
use crate::{FolderFile, FolderReader};
use rk_outside::{Failed, NoMemory, Vault, VaultError};
use std::alloc::Global;
use std::fs::Files;

/// A vault in a folder: file n is kept under the decimal name n, and other names are passed over. It tells neither contents nor
/// crash facts.
#[derive(Drop)]
pub struct FolderVault<R: Files + Send + Drop> {
    folder: Folder<R>,
    faults: Faults,
}

impl<R: Files + Send + Drop> FolderVault<R> {
    /// The vault in the folder at a path, which is made where it is not there.
    ///
    /// # Errors
    ///
    /// `Failed` where the folder could be neither found nor made, and `Memory`.
    pub fn new(rt: R, alloc: Global, path: &str) -> Result<FolderVault<R>, VaultError>
        ensures { IfOk result (λ vault. ⟦<FolderVault<R> as Vault>⟧.fault_count vault ≡ 0) }
    {
        if !is_made(&rt, path) {
            return Err(VaultError::Failed);
        }
        let Ok(path) = path.to_string(alloc) else {
            return Err(VaultError::Memory);
        };
        Ok(FolderVault {
            folder: Folder { rt, alloc, path },
            faults: Faults { count: 0 },
        })
    }
}

// Makes the folder at a path, which the folder around it then keeps, where there is none. Whether there is one.
fn is_made<R: Files + Drop>(rt: &R, path: &str) -> bool {
    if rt.create_dir(path).is_ok() {
        return sync_folder(rt, parent_of(path)).is_ok();
    }
    match rt.metadata(path) {
        Ok(metadata) => metadata.is_dir(),
        Err(_) => false,
    }
}

// The path of the folder around another one.
fn parent_of(path: &str) -> &str {
    match path.rsplit_once('/') {
        Some(("", _)) => "/",
        Some((parent, _)) => parent,
        None => ".",
    }
}

impl<R: Files + Send + Drop> Vault for FolderVault<R> {
    type File = FolderFile;

    ghost disk = { λ v. untold };

    ghost room = { λ v file. 2 ^ 64 + 2 ^ 64 };

    ghost fault_count = { λ v. v.faults.count };

    ghost unnoted = { λ v. 0 };

    ghost honest = { λ v files moments. absurd (false≢true moments) };

    fn numbers(&mut self, alloc: Global) -> Result<Vec<u64>, VaultError> {
        let answer = match self.folder.names(alloc) {
            Ok(names) => numbers_of(alloc, &names),
            Err(error) => Err(error),
        };
        self.faults.noted_or_memory(answer)
    }

    fn make_room(&mut self, _alloc: Global, _file: u64, _upto: u64) -> Result<(), VaultError> {
        Ok(())
    }

    fn len(&mut self, file: u64) -> Result<Option<u64>, Failed> {
        let answer = self.folder.len(file);
        self.faults.noted(answer)
    }

    fn read_at(&mut self, file: u64, at: u64, out: &mut [u8]) -> Result<usize, Failed> {
        let answer = self.folder.read(file, at, out);
        self.faults.noted(answer)
    }

    fn write_at(&mut self, file: u64, at: u64, bytes: &[u8]) -> Result<(), Failed> {
        let answer = self.folder.write(file, at, bytes);
        self.faults.noted(answer)
    }

    fn cut(&mut self, file: u64, len: u64) -> Result<(), Failed> {
        let answer = self.folder.cut(file, len);
        self.faults.noted(answer)
    }

    fn sync(&mut self, file: u64) -> Result<(), Failed> {
        let answer = self.folder.sync(file);
        self.faults.noted(answer)
    }

    fn remove(&mut self, file: u64) -> Result<(), Failed> {
        let answer = self.folder.remove(file);
        self.faults.noted(answer)
    }

    fn open_sealed(&mut self, alloc: Global, file: u64) -> Result<FolderFile, VaultError> {
        let answer = self.folder.all(alloc, file);
        let bytes = self.faults.noted_or_memory(answer)?;
        Ok(FolderFile { bytes })
    }

    fn reader(&mut self, _alloc: Global) -> Result<FolderReader, NoMemory> {
        Ok(FolderReader { reads: 0 })
    }

    fn give_back(&mut self, _reader: FolderReader) {}

    fn faults(&self) -> u64 {
        self.faults.count
    }
}
