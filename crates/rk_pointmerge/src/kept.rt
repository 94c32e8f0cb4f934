// A key and an entry that are kept in buffers.
ghost use Rattle.std.specs.Prelude.{◌≡◌, OnOk, IfErr, Some, None};
ghost use Rattle.std.specs.Option.{option_copied};
ghost use Rattle.rk_outside.specs.declared.error.SourceError.{SourceError};
ghost use Rattle.rk_pointmerge.specs.Visibles.{is_kept};

use rk_key::{UserKey, compare};
use rk_model::Entry;
use rk_outside::SourceError;
use std::alloc::Global;
use std::marker::Model;

// A key, or none. The buffer stays, so that only a longer key takes memory.
#[derive(Debug, Drop)]
pub(crate) struct KeptKey {
    bytes: Vec<u8>,
}

impl Model for KeptKey {
    ghost use Rattle.std.specs.Prelude.{ℕ, List, Option};
    ghost use Rattle.rk_pointmerge.specs.Visibles.{kept_key, IsKeyOrNone};

    ghost Value = { Option (List ℕ) };

    ghost view = { λ k. kept_key k.bytes.items };

    ghost invariant = { λ k. IsKeyOrNone k.bytes.items };
}

impl KeptKey {
    pub(crate) fn new(alloc: Global) -> KeptKey
        ensures { result ≡ None }
    {
        KeptKey {
            bytes: Vec::new(alloc),
        }
    }

    pub(crate) fn clear(&mut self)
        ensures { self.new ≡ None }
    {
        self.bytes.clear();
    }

    pub(crate) fn keep(&mut self, key: &UserKey) -> Result<(), SourceError>
        ensures ok { OnOk result (self.new ≡ Some key.now) }
        ensures memory { IfErr result (λ e. e ≡ SourceError.Memory) }
    {
        self.bytes.clear();
        Ok(self.bytes.extend_from_slice(key.bytes())?)
    }

    pub(crate) fn is(&self, key: &UserKey) -> bool
        ensures { result ≡ is_kept self.now key.now }
    {
        !self.bytes.is_empty() && compare(key.bytes(), &self.bytes).is_eq()
    }
}

// An entry, or none. Its buffers stay, so that only a longer key or value takes memory.
#[derive(Debug, Drop)]
pub(crate) struct KeptEntry {
    entry: Option<Entry>,
    is_kept: bool,
}

impl Model for KeptEntry {
    ghost use Rattle.std.specs.Prelude.{Option, None, if◌then◌else◌};
    ghost use Rattle.rk_model.specs.declared.op.Entry.{Entry};

    ghost Value = { Option Entry };

    ghost view = { λ k. if k.is_kept then k.entry else None };
}

impl KeptEntry {
    pub(crate) fn new() -> KeptEntry
        ensures { result ≡ None }
    {
        KeptEntry {
            entry: None,
            is_kept: false,
        }
    }

    pub(crate) fn clear(&mut self)
        ensures { self.new ≡ None }
    {
        self.is_kept = false;
    }

    pub(crate) fn keep(&mut self, entry: &Entry) -> Result<(), SourceError>
        ensures ok { OnOk result (self.new ≡ Some entry.now) }
        ensures memory { IfErr result (λ e. e ≡ SourceError.Memory) }
    {
        self.is_kept = false;
        let copy = match self.entry.take() {
            Some(old) => entry.copy_into(old)?,
            None => entry.copy()?,
        };
        self.entry = Some(copy);
        self.is_kept = true;
        Ok(())
    }

    pub(crate) fn get(&self) -> Option<&Entry>
        ensures { option_copied result ≡ self.now }
    {
        if self.is_kept {
            self.entry.as_ref()
        } else {
            None
        }
    }
}
