// The calls of a vault in memory.
ghost use Rattle.std.specs.Prelude.{◌≡◌, ◌⊎◌, ◌≤◌, [], true, false, OnOk, OnErr, is_err};
ghost use Rattle.rk_outside.specs.Calls.{IsNextListed, no_calls, one_more};
ghost use Rattle.rk_memvault.specs.Records.{after_noted, after_starved, IsCounted};

use crate::schedule::Schedule;
use rk_outside::{Bytes, Failed};
use std::alloc::Global;
use std::marker::Model;

/// What a call asked to change in a file. A write keeps its place and its bytes, and no whole file.
#[derive(Debug, Drop)]
pub enum Edit {
    /// Bytes over what was there from a place on.
    Write {
        /// The place.
        at: u64,
        /// The bytes.
        bytes: Bytes,
    },
    /// A cut to a length.
    Cut {
        /// The length.
        len: u64,
    },
    /// A sync.
    Sync,
    /// A removal.
    Remove,
}

/// A call that changes or reads the vault.
#[derive(Debug, Drop)]
pub enum Call {
    /// The numbers of the files.
    Numbers,
    /// Room for so many bytes of a file.
    MakeRoom {
        /// The file.
        file: u64,
        /// How many bytes in all.
        upto: u64,
    },
    /// A file's length.
    Length {
        /// The file.
        file: u64,
    },
    /// A read into so long a piece.
    Read {
        /// The file.
        file: u64,
        /// The place.
        at: u64,
        /// How long the piece is.
        len: usize,
    },
    /// A change of a file.
    Edited {
        /// The file.
        file: u64,
        /// What was to change.
        edit: Edit,
    },
    /// The opening of a sealed file.
    Open {
        /// The file.
        file: u64,
    },
}

/// A call, and whether it was done. One that was not failed because it was listed.
#[derive(Debug, Drop)]
pub struct Noted {
    /// The call.
    pub call: Call,
    /// Whether it was done.
    pub ok: bool,
}

#[derive(Debug, Drop)]
pub(crate) struct Record {
    entries: Vec<Noted>,
    calls: Schedule,
    starved: u64,
}

impl Model for Record {
    ghost use Rattle.rk_memvault.specs.Records.{Kept};

    ghost Value = { Kept };

    ghost view = { λ r. record { entries = r.entries.items; calls = r.calls; starved = r.starved } };
}

impl Record {
    // No call so far. It takes no memory.
    pub(crate) fn new(alloc: Global, fail: Vec<u64>) -> Record
        ensures { result ≡ record { entries = []; calls = no_calls fail.items; starved = 0 } }
    {
        Record {
            entries: Vec::new(alloc),
            calls: Schedule::new(fail),
            starved: 0,
        }
    }

    pub(crate) fn entries(&self) -> &[Noted]
        ensures { result.now ≡ self.now.entries }
    {
        &self.entries
    }

    // Counts a call that can't be noted.
    pub(crate) fn starve(&mut self) -> Failed
        ensures counted { self.new ≡ after_starved self.old }
        ensures later { self.old.starved ≤ self.new.starved }
        ensures faults { self.old.calls.faults ≤ self.new.calls.faults }
    {
        self.calls.count(true);
        self.starved = self.starved.saturating_add(1);
        Failed
    }

    // Notes a call and counts it. It fails where it is listed, or can't be noted.
    pub(crate) fn note(&mut self, call: Call) -> Result<(), Failed>
        ensures done { OnOk result (self.new ≡ after_noted call true self.old) }
        ensures listed { OnOk result (IsNextListed self.old.calls → ⊥) }
        ensures failed { OnErr result ((IsNextListed self.old.calls × (self.new ≡ after_noted call false self.old))
            ⊎ (self.new ≡ after_starved self.old)) }
        ensures counted { IsCounted (is_err result) self.old self.new }
        ensures later { self.old.starved ≤ self.new.starved }
        ensures faults { self.old.calls.faults ≤ self.new.calls.faults }
    {
        let ok = !self.calls.is_next_listed();
        if self.entries.push(Noted { call, ok }).is_err() {
            return Err(self.starve());
        }
        self.calls.count(!ok);
        if ok { Ok(()) } else { Err(Failed) }
    }

    // The same of a write. It is also not noted where its bytes can't be copied.
    pub(crate) fn note_write(&mut self, file: u64, at: u64, bytes: &[u8]) -> Result<(), Failed>
        ensures done { OnOk result (self.new ≡ after_noted (Call.Edited file (Edit.Write at bytes.now)) true self.old) }
        ensures failed { OnErr result ((IsNextListed self.old.calls × (self.new ≡ after_noted (Call.Edited file (Edit.Write at bytes.now)) false self.old))
            ⊎ (self.new ≡ after_starved self.old)) }
        ensures counted { IsCounted (is_err result) self.old self.new }
        ensures later { self.old.starved ≤ self.new.starved }
        ensures faults { self.old.calls.faults ≤ self.new.calls.faults }
    {
        let Ok(bytes) = Bytes::from_slice(*self.entries.allocator(), bytes) else {
            return Err(self.starve());
        };
        self.note(Call::Edited {
            file,
            edit: Edit::Write { at, bytes },
        })
    }

    // Counts a fault of something else.
    pub(crate) fn add_fault(&mut self)
        ensures counted { self.new ≡ record self.old { calls = record self.old.calls { faults = one_more self.old.calls.faults } } }
        ensures later { self.old.calls.faults ≤ self.new.calls.faults }
    {
        self.calls.add_fault();
    }

    pub(crate) fn faults(&self) -> u64
        ensures { result ≡ self.now.calls.faults }
    {
        self.calls.faults()
    }

    pub(crate) fn starved(&self) -> u64
        ensures { result ≡ self.now.starved }
    {
        self.starved
    }
}
