// One file's bytes, and room for more.
ghost use Rattle.std.specs.Prelude.{◌≡◌, ◌+◌, ◌≤◌, [], None, Some, IfOk, IfSome, is_some, OnOk, length, option_map, unwrap_or};
ghost use Rattle.rk_outside.specs.Disks.{done, overwritten, Write, Cut, Remove};

use rk_outside::NoMemory;
use std::alloc::Global;
use std::marker::Model;

#[derive(Debug, Drop)]
pub(crate) struct Slot {
    // As long as the room. What lies behind the file's length means nothing.
    room: Vec<u8>,
    // How many bytes the file has, and none where it is not there.
    len: Option<usize>,
}

impl Model for Slot {
    ghost use Rattle.std.specs.Prelude.{◌≤◌, IfSome, length, option_map, take};
    ghost use Rattle.rk_memvault.specs.Slots.{Held};

    ghost Value = { Held };

    ghost view = { λ s. record { bytes = option_map (λ n. take n s.room.items) s.len; room = length s.room.items } };

    ghost invariant = { λ s. IfSome s.len (λ n. n ≤ length s.room.items) };
}

// Writes these bytes from a place on, and answers where they end.
fn overwrite(room: &mut [u8], at: usize, bytes: &[u8]) -> usize
    requires { at + length bytes.now ≤ length room.old }
    ensures end { result ≡ at + length bytes.now }
    ensures bytes { room.new ≡ overwritten room.old at bytes.now }
{
    let (_, rest) = room.split_at_mut(at);
    let (place, _) = rest.split_at_mut(bytes.len());
    place.copy_from_slice(bytes);
    at + bytes.len()
}

impl Slot {
    // No file, and no room. It takes no memory.
    pub(crate) fn new(alloc: Global) -> Slot
        ensures { result ≡ record { bytes = None; room = 0 } }
    {
        Slot {
            room: Vec::new(alloc),
            len: None,
        }
    }

    // A file with these bytes, and room for no more.
    pub(crate) fn of(alloc: Global, bytes: &[u8]) -> Result<Slot, NoMemory>
        ensures { IfOk result (λ s. s ≡ record { bytes = Some bytes.now; room = length bytes.now }) }
    {
        let room = bytes.to_vec(alloc)?;
        let len = Some(room.len());
        Ok(Slot { room, len })
    }

    // Makes room for so many bytes in all.
    pub(crate) fn make_room(&mut self, upto: usize) -> Result<(), NoMemory>
        ensures bytes { self.new.bytes ≡ self.old.bytes }
        ensures grown { self.old.room ≤ self.new.room }
        ensures made { OnOk result (upto ≤ self.new.room) }
    {
        if self.room.len() < upto {
            self.room.resize(upto, 0)?;
        }
        Ok(())
    }

    pub(crate) fn len(&self) -> Option<u64>
        ensures { result ≡ option_map length self.now.bytes }
    {
        self.len.map(|len| len as u64)
    }

    pub(crate) fn is_there(&self) -> bool
        ensures { result ≡ is_some self.now.bytes }
    {
        self.len.is_some()
    }

    // The file's bytes, and none where it is not there.
    pub(crate) fn bytes(&self) -> &[u8]
        ensures { result.now ≡ unwrap_or self.now.bytes [] }
    {
        &self.room[..self.len.unwrap_or(0)]
    }

    pub(crate) fn write_at(&mut self, at: usize, bytes: &[u8])
        requires room { at + length bytes.now ≤ self.old.room }
        requires at { at ≤ length (unwrap_or self.old.bytes []) }
        ensures bytes { self.new.bytes ≡ done (Write at bytes.now) self.old.bytes }
        ensures room { self.new.room ≡ self.old.room }
    {
        let end = overwrite(&mut self.room, at, bytes);
        self.len = Some(self.len.unwrap_or(0).max(end));
    }

    pub(crate) fn cut(&mut self, len: usize)
        requires { IfSome self.old.bytes (λ bytes. len ≤ length bytes) }
        ensures bytes { self.new.bytes ≡ done (Cut len) self.old.bytes }
        ensures room { self.new.room ≡ self.old.room }
    {
        self.len = self.len.map(|_| len);
    }

    pub(crate) fn remove(&mut self)
        ensures bytes { self.new.bytes ≡ done Remove self.old.bytes }
        ensures room { self.new.room ≡ self.old.room }
    {
        self.len = None;
    }
}
