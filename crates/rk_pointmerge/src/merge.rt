// The points of several sources as one list.
ghost use Rattle.std.specs.Prelude.{◌≡◌, IfOk, None, true, false, map};
ghost use Rattle.rk_pointmerge.specs.Merges.{merged, merged_standing, merging};
ghost use Rattle.rk_pointmerge.specs.MergeLaws.{merged-ordered, merged-told, merged-rise};

use crate::moves::{pass_to, seek_to, step_all};
use crate::nearest::shown_at;
use rk_key::UserKey;
use rk_model::{Cut, Entry, Sorted, Source};
use rk_outside::{Counting, NoMemory, SourceError};
use std::alloc::Global;
use std::marker::Model;

/// The entries of several sources as one list, ascending: their union, by key and the newest first within one
/// key. It is told where each source is told and no two entries over one key have one number.
///
/// Between two calls each source stands at the same gap of the union, and one that sees the nearest entry is
/// known. So a step moves one source, and compares what all of them show; a change of direction turns each
/// source; and nothing but a seek seeks.
#[derive(Debug, Drop)]
pub struct PointMerge<S: Sorted<Item = Entry>> {
    sources: Vec<S>,
    at: Option<usize>,
    forward: bool,
    known: bool,
}

impl<S: Sorted<Item = Entry>> Model for PointMerge<S> {
    ghost use Rattle.rk_pointmerge.specs.Merges.{Merging, Rests};

    ghost Value = { Merging S };

    ghost view = { λ m. record { sources = m.sources.items; at = m.at; forward = m.forward; known = m.known } };

    ghost invariant = { λ m. Rests S.listing S.standing (record { sources = m.sources.items; at = m.at; forward = m.forward; known = m.known }) };
}

impl<S: Sorted<Item = Entry>> PointMerge<S> {
    /// A merge of these sources, at no gap. It takes no memory.
    ///
    /// # Errors
    ///
    /// None: `NoMemory` is there for a body that takes some.
    pub fn new(_: Global, sources: Vec<S>) -> Result<PointMerge<S>, NoMemory>
        ensures listing { IfOk result (λ m. ⟦<PointMerge<S> as Sorted>⟧.listing m ≡ merged (map S.listing sources.items)) }
        ensures standing { IfOk result (λ m. ⟦<PointMerge<S> as Sorted>⟧.standing m ≡ merged_standing S.listing S.standing sources.items None true false) }
    {
        Ok(PointMerge {
            sources,
            at: None,
            forward: true,
            known: false,
        })
    }
}

impl<S: Sorted<Item = Entry>> Sorted for PointMerge<S> {
    type Item = Entry;

    ghost listing = { λ m. merged (map S.listing m.sources) };

    ghost standing = { λ m. merging S.listing S.standing m };
}

impl<R: Counting, S: Source<R, Item = Entry>> Source<R> for PointMerge<S> {
    fn seek(
        &mut self,
        reader: &mut R,
        cut: Cut<&UserKey>,
        forward: bool,
    ) -> Result<(), SourceError> {
        self.at = None;
        self.known = false;
        self.at = seek_to(&mut self.sources, reader, cut, forward)?;
        self.forward = forward;
        self.known = true;
        Ok(())
    }

    fn pass(
        &mut self,
        reader: &mut R,
        cut: Cut<&UserKey>,
        forward: bool,
    ) -> Result<(), SourceError> {
        self.at = None;
        self.known = false;
        self.at = pass_to(&mut self.sources, reader, cut, forward)?;
        self.known = true;
        Ok(())
    }

    fn step(&mut self, reader: &mut R, forward: bool) -> Result<(), SourceError> {
        let at = self.at.take();
        self.known = false;
        self.at = step_all(&mut self.sources, reader, at, self.forward, forward)?;
        self.forward = forward;
        self.known = true;
        Ok(())
    }

    fn here(&self) -> Option<&Entry> {
        shown_at::<R, S>(&self.sources, self.at)
    }

    ghost ordered = { λ m. merged-ordered (map S.listing m.sources) };

    ghost told = { λ m. merged-told S.listing S.ordered S.standing S.told m.sources m.at m.forward m.known };

    ghost rise = { λ m. merged-rise S.listing S.ordered S.rise m.sources };

    ghost once = { λ m never. absurd (Prim.cc) };
}
