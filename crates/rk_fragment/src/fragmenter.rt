// A fragmenter that entries are added to.
ghost use Rattle.std.specs.Prelude.{◌≡◌, [], ◌∷◌, ◌++◌, IfOk, OnOk, OnErr};
ghost use Rattle.rk_fragment.specs.Fragments.{fragments};

use crate::spans::fragment;
use rk_model::{Entry, Span};
use rk_outside::NoMemory;
use std::alloc::Global;
use std::marker::Model;

/// The spans of the entries that were added. Contracts see the list of those entries.
///
/// It keeps copies of the entries, and each [`Fragmenter::add`] makes the spans anew.
#[derive(Debug, Drop)]
pub struct Fragmenter {
    entries: Vec<Entry>,
    spans: Vec<Span>,
}

impl Model for Fragmenter {
    ghost use Rattle.std.specs.Prelude.{◌≡◌, List};
    ghost use Rattle.rk_model.specs.declared.op.Entry.{Entry};
    ghost use Rattle.rk_fragment.specs.Fragments.{fragments};

    ghost Value = { List Entry };

    ghost view = { λ f. f.entries.items };

    ghost invariant = { λ f. f.spans.items ≡ fragments f.entries.items };
}

impl Fragmenter {
    /// A fragmenter of no entries.
    ///
    /// # Errors
    ///
    /// None: `NoMemory` is there for a body that takes some.
    pub fn new(alloc: Global) -> Result<Fragmenter, NoMemory>
        ensures { IfOk result (λ f. f ≡ []) }
    {
        Ok(Fragmenter {
            entries: Vec::new(alloc),
            spans: Vec::new(alloc),
        })
    }

    /// Adds an entry. Where that finds no memory, the fragmenter stays as it was.
    ///
    /// # Errors
    ///
    /// `NoMemory` where the entry or the spans find no memory.
    pub fn add(&mut self, entry: &Entry) -> Result<(), NoMemory>
        ensures ok { OnOk result (self.new ≡ self.old ++ entry.now ∷ []) }
        ensures err { OnErr result (self.new ≡ self.old) }
    {
        let alloc = *self.entries.allocator();
        self.entries.push(entry.copy()?)?;
        match fragment(alloc, &self.entries) {
            Ok(spans) => {
                self.spans = spans;
                Ok(())
            }
            Err(error) => {
                self.entries.pop();
                Err(error)
            }
        }
    }

    /// Lends the spans, as [`fragment`] gives them of the entries that were added. It takes no memory.
    pub fn spans(&self) -> &[Span]
        ensures { result.now ≡ fragments self.now }
    {
        &self.spans
    }
}
