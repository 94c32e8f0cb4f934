// Files under numbers, and room for more.
ghost use Rattle.std.specs.Prelude.{◌≡◌, ◌≢◌, ◌+◌, ◌≤◌, ◌<◌, ℕ, [], Some, IfSome, IsSome, IfOk, OnOk, length, option_map, true};
ghost use Rattle.std.specs.Ordering.{nat_cmp};
ghost use Rattle.std.specs.BTreeMap.{IsOrdered};
ghost use Rattle.rk_outside.specs.Disks.{FilesChange, bytes_in, Write, Cut, Remove};
ghost use Rattle.rk_outside.specs.Vaults.{AreNumbers, RoomsStay};
ghost use Rattle.rk_memvault.specs.Records.{files_of};
ghost use Rattle.rk_memvault.specs.Slots.{files_in, rooms_in, held_at, numbers_in};

use crate::slot::Slot;
use rk_outside::{Bytes, NoMemory};
use std::alloc::Global;
use std::collections::BTreeMap;
use std::marker::Model;

#[derive(Debug, Drop)]
pub(crate) struct Slots {
    // A file that was removed leaves its slot there, since its room stays.
    slots: BTreeMap<u64, Slot>,
}

impl Model for Slots {
    ghost use Rattle.std.specs.Prelude.{List, ℕ};
    ghost use Rattle.rk_memvault.specs.Slots.{Held};

    ghost Value = { List (ℕ × Held) };

    ghost view = { λ s. s.slots.entries };
}

fn numbers_of(slots: &BTreeMap<u64, Slot>, alloc: Global) -> Result<Vec<u64>, NoMemory>
    ensures listed { IfOk result (λ ns. ns.items ≡ numbers_in slots.now.entries) }
    ensures ordered { IsOrdered nat_cmp slots.now }
{
    let mut numbers = Vec::new(alloc);
    for (number, slot) in slots {
        if slot.is_there() {
            numbers.push(*number)?;
        }
    }
    Ok(numbers)
}

impl Slots {
    // No file. It takes no memory.
    pub(crate) fn new(alloc: Global) -> Slots
        ensures { result ≡ [] }
    {
        Slots {
            slots: BTreeMap::new(alloc),
        }
    }

    // These files.
    pub(crate) fn of(alloc: Global, files: &[(u64, Bytes)]) -> Result<Slots, NoMemory>
        ensures { IfOk result (λ s. (f : ℕ) → files_in s f ≡ files_of files.now f) }
    {
        let mut slots = Slots::new(alloc);
        for i in 0..files.len() {
            let (file, bytes) = &files[files.len() - 1 - i];
            slots.put(alloc, *file, bytes.bytes())?;
        }
        Ok(slots)
    }

    // Puts a file there, in place of what there was.
    pub(crate) fn put(&mut self, alloc: Global, file: u64, bytes: &[u8]) -> Result<(), NoMemory>
        ensures this { OnOk result (files_in self.new file ≡ Some bytes.now) }
        ensures others { OnOk result ((f : ℕ) → f ≢ file → files_in self.new f ≡ files_in self.old f) }
    {
        self.slots.insert(file, Slot::of(alloc, bytes)?)?;
        Ok(())
    }

    // The numbers of the files that are there, rising.
    pub(crate) fn numbers(&self, alloc: Global) -> Result<Vec<u64>, NoMemory>
        ensures { IfOk result (λ ns. AreNumbers (files_in self.now) ns.items) }
    {
        numbers_of(&self.slots, alloc)
    }

    pub(crate) fn len(&self, file: u64) -> Option<u64>
        ensures { result ≡ option_map length (files_in self.now file) }
    {
        match self.slots.get(&file) {
            Some(slot) => slot.len(),
            None => None,
        }
    }

    // The file's bytes, and none where it is not there.
    pub(crate) fn bytes(&self, file: u64) -> &[u8]
        ensures { result.now ≡ bytes_in (files_in self.now) file }
    {
        match self.slots.get(&file) {
            Some(slot) => slot.bytes(),
            None => &[],
        }
    }

    // Makes a slot for the file where there is none. It makes no file.
    fn add(&mut self, alloc: Global, file: u64) -> Result<(), NoMemory>
        ensures files { (f : ℕ) → files_in self.new f ≡ files_in self.old f }
        ensures rooms { (f : ℕ) → rooms_in self.new f ≡ rooms_in self.old f }
        ensures there { OnOk result (IsSome (held_at self.new file)) }
    {
        if !self.slots.contains_key(&file) {
            self.slots.insert(file, Slot::new(alloc))?;
        }
        Ok(())
    }

    fn grow(&mut self, file: u64, upto: u64) -> Result<(), NoMemory>
        requires { IsSome (held_at self.old file) }
        ensures files { (f : ℕ) → files_in self.new f ≡ files_in self.old f }
        ensures rooms { RoomsStay (rooms_in self.old) (rooms_in self.new) }
        ensures made { OnOk result (upto ≤ rooms_in self.new file) }
    {
        match self.slots.get_mut(&file) {
            Some(slot) => slot.make_room(upto as usize),
            None => unreachable!(),
        }
    }

    // Makes room for so many bytes of the file in all. It makes no file.
    pub(crate) fn make_room(&mut self, alloc: Global, file: u64, upto: u64) -> Result<(), NoMemory>
        ensures files { (f : ℕ) → files_in self.new f ≡ files_in self.old f }
        ensures rooms { RoomsStay (rooms_in self.old) (rooms_in self.new) }
        ensures made { OnOk result (upto ≤ rooms_in self.new file) }
    {
        self.add(alloc, file)?;
        self.grow(file, upto)
    }

    pub(crate) fn write_at(&mut self, file: u64, at: u64, bytes: &[u8])
        requires some { 0 < rooms_in self.old file }
        requires room { at + length bytes.now ≤ rooms_in self.old file }
        requires at { at ≤ length (bytes_in (files_in self.old) file) }
        ensures files { FilesChange file (Write at bytes.now) true (files_in self.old) (files_in self.new) }
        ensures rooms { (f : ℕ) → rooms_in self.new f ≡ rooms_in self.old f }
    {
        match self.slots.get_mut(&file) {
            Some(slot) => slot.write_at(at as usize, bytes),
            None => unreachable!(),
        }
    }

    pub(crate) fn cut(&mut self, file: u64, len: u64)
        requires { IfSome (files_in self.old file) (λ bytes. len ≤ length bytes) }
        ensures files { FilesChange file (Cut len) true (files_in self.old) (files_in self.new) }
        ensures rooms { (f : ℕ) → rooms_in self.new f ≡ rooms_in self.old f }
    {
        if let Some(slot) = self.slots.get_mut(&file) {
            slot.cut(len as usize);
        }
    }

    pub(crate) fn remove(&mut self, file: u64)
        ensures files { FilesChange file Remove true (files_in self.old) (files_in self.new) }
        ensures rooms { (f : ℕ) → rooms_in self.new f ≡ rooms_in self.old f }
    {
        if let Some(slot) = self.slots.get_mut(&file) {
            slot.remove();
        }
    }
}
