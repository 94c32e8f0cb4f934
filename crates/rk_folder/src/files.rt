// Calls of the file system on the files of a folder.
ghost use Rattle.std.specs.Io.{ReadsAtMost};

use std::alloc::Global;
use std::fs::{Files, OpenFile, OpenOptions};
use std::io::{self, ErrorKind, Read, Seek, SeekFrom, Write};

/// The files of a folder, each under its number in decimal digits.
#[derive(Drop)]
pub(crate) struct Folder<R: Files + Drop> {
    pub(crate) rt: R,
    pub(crate) alloc: Global,
    pub(crate) path: String,
}

impl<R: Files + Drop> Folder<R> {
    fn path_of(&self, file: u64) -> io::Result<String> {
        match format!(in self.alloc; "{}/{}", self.path, file) {
            Ok(path) => Ok(path),
            Err(_) => Err(ErrorKind::OutOfMemory.into()),
        }
    }

    // Opens a file, where it is there or is to be made.
    fn open(&self, how: &OpenOptions, file: u64) -> io::Result<Option<R::File>> {
        let path = self.path_of(file)?;
        or_none(self.rt.open_file(how, &path))
    }

    pub(crate) fn len(&self, file: u64) -> io::Result<Option<u64>> {
        let path = self.path_of(file)?;
        match or_none(self.rt.metadata(&path))? {
            Some(metadata) => Ok(Some(metadata.len())),
            None => Ok(None),
        }
    }

    /// Fills the front of `out` from a place on, and answers how many bytes there are.
    pub(crate) fn read(&self, file: u64, at: u64, out: &mut [u8]) -> io::Result<usize>
        ensures { ReadsAtMost result out.new }
    {
        let len = self.len(file)?.unwrap_or(0);
        let count = (out.len() as u64).min(len.saturating_sub(at)) as usize;
        if let Some(mut open) = self.open(OpenOptions::new().read(true), file)? {
            open.seek(SeekFrom::Start(at))?;
            open.read_exact(&mut out[..count])?;
            return Ok(count);
        }
        Ok(0)
    }

    /// Writes bytes from a place on, and makes the file where it is missing.
    pub(crate) fn write(&self, file: u64, at: u64, bytes: &[u8]) -> io::Result<()> {
        if let Some(mut open) = self.open(OpenOptions::new().write(true).create(true), file)? {
            open.seek(SeekFrom::Start(at))?;
            open.write_all(bytes)?;
        }
        Ok(())
    }

    pub(crate) fn cut(&self, file: u64, len: u64) -> io::Result<()> {
        if let Some(open) = self.open(OpenOptions::new().write(true), file)? {
            open.set_len(len)?;
        }
        Ok(())
    }

    /// Syncs the file, where it is there, and the folder, which tells whether it is.
    pub(crate) fn sync(&self, file: u64) -> io::Result<()> {
        if let Some(open) = self.open(OpenOptions::new().read(true), file)? {
            open.sync_all()?;
        }
        sync_folder(&self.rt, &self.path)
    }

    pub(crate) fn remove(&self, file: u64) -> io::Result<()> {
        let path = self.path_of(file)?;
        or_none(self.rt.remove_file(&path))?;
        Ok(())
    }

    /// The bytes of a file.
    pub(crate) fn all(&self, alloc: Global, file: u64) -> io::Result<Vec<u8>> {
        let mut bytes = Vec::new(alloc);
        if let Some(mut open) = self.open(OpenOptions::new().read(true), file)? {
            open.read_to_end(&mut bytes)?;
        }
        Ok(bytes)
    }

    /// The names in the folder, each ended by a zero byte.
    pub(crate) fn names(&self, alloc: Global) -> io::Result<Vec<u8>> {
        let mut names = Vec::new(alloc);
        self.rt.open_dir(&self.path)?.read_to_end(&mut names)?;
        Ok(names)
    }
}

/// Syncs a folder, which tells what files are in it.
pub(crate) fn sync_folder<R: Files + Drop>(rt: &R, path: &str) -> io::Result<()> {
    let folder = rt.open_file(OpenOptions::new().read(true), path)?;
    folder.sync_all()
}

/// None where a file is not there.
fn or_none<T>(answer: io::Result<T>) -> io::Result<Option<T>> {
    match answer {
        Ok(value) => Ok(Some(value)),
        Err(error) if error.kind() == ErrorKind::NotFound => Ok(None),
        Err(error) => Err(error),
    }
}

/// The numbers among names that are each ended by a zero byte, rising. Other names are no files of the vault.
pub(crate) fn numbers_of(alloc: Global, names: &[u8]) -> io::Result<Vec<u64>> {
    let mut numbers = Vec::new(alloc);
    for name in names.split(|byte| *byte == 0) {
        if let Some(number) = number_of(name) {
            if numbers.push(number).is_err() {
                return Err(ErrorKind::OutOfMemory.into());
            }
        }
    }
    numbers.sort_unstable();
    Ok(numbers)
}

/// The number that a name spells in decimal digits, without a zero before others.
fn number_of(name: &[u8]) -> Option<u64> {
    if name.is_empty() || (name.len() > 1 && name[0] == b'0') {
        return None;
    }
    let mut number: u64 = 0;
    for byte in name {
        if !byte.is_ascii_digit() {
            return None;
        }
        number = number
            .checked_mul(10)?
            .checked_add(u64::from(*byte - b'0'))?;
    }
    Some(number)
}
