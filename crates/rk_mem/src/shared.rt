// Entries that chunks share.
ghost use Rattle.std.specs.Prelude.{◌≡◌, IfOk, false};
ghost use Rattle.rk_model.specs.Items.{point_takes, keyed_points};
ghost use Rattle.rk_model.specs.ItemLaws.{points-first, points-rise, points-part};

use rk_key::UserKey;
use rk_model::{Cut, Entry, Item};
use rk_outside::NoMemory;
use std::alloc::Global;
use std::marker::Model;
use std::sync::Arc;

/// An entry that several chunks may hold. Contracts see the entry.
#[derive(Debug, Drop)]
pub(crate) struct Shared {
    entry: Arc<Entry>,
}

impl Model for Shared {
    ghost use Rattle.std.specs.Arc.{arc_value};
    ghost use Rattle.rk_model.specs.declared.op.Entry.{Entry};

    ghost Value = { Entry };

    ghost view = { λ s. arc_value s.entry };
}

impl Shared {
    /// Moves an entry in. Its keys and its value are not copied.
    pub(crate) fn new(alloc: Global, entry: Entry) -> Result<Shared, NoMemory>
        ensures { IfOk result (λ shared. shared ≡ entry) }
    {
        Ok(Shared {
            entry: Arc::new(alloc, entry)?,
        })
    }

    /// The same entry once more. Nothing is copied.
    pub(crate) fn share(&self) -> Result<Shared, NoMemory>
        ensures { IfOk result (λ shared. shared ≡ self.now) }
    {
        Ok(Shared {
            entry: Arc::try_clone(&self.entry)?,
        })
    }

    /// Lends the entry.
    pub(crate) fn entry(&self) -> &Entry
        ensures { result.now ≡ self.now }
    {
        &self.entry
    }
}

impl Item for Shared {
    ghost takes = { λ _ cut e. point_takes cut e };

    ghost in_order = { keyed_points };

    ghost read_once = { false };

    ghost first = { λ _ cut es sorted. points-first cut es sorted };

    ghost rise = { λ _ e. points-rise e };

    ghost part = { points-part };

    fn is_before(&self, cut: Cut<&UserKey>, forward: bool) -> bool {
        self.entry().is_before(cut, forward)
    }
}
