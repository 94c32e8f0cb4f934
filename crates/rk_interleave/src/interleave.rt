//! The interleaver, and what it lends.
ghost use Rattle.std.specs.Prelude.{◌≡◌, [], None, false, is_some, IfOk, MatchOption};
ghost use Rattle.std.specs.Option.{option_copied, option_map_or};
ghost use Rattle.rk_model.specs.Moves.{key_at};
ghost use Rattle.rk_model.specs.declared.cursor.Cursor.TheVariants.{Fresh};

use crate::lent::Lent;
use rk_model::{Cursor, Entry, IterOptions, Sorted, Span, SuffixValue, copy_bound};
use rk_outside::NoMemory;
use rk_sources::Bounded;
use std::alloc::Global;
use std::marker::Model;

/// An iterator over points and the widest spans within its bounds. Its points are cut at the bounds here.
///
/// What is lent is kept in buffers that are used again: a move within one span keeps the span, and where the next key
/// and value fit the buffers it takes no memory. Where a move is refused, what is lent stays, and the next move seeks
/// again from the cursor.
#[derive(Debug, Drop)]
pub struct Interleave<P: Sorted<Item = Entry>, S: Sorted<Item = Span>> {
    pub(crate) points: Bounded<P>,
    pub(crate) spans: S,
    pub(crate) options: IterOptions,
    pub(crate) lent: Lent,
    pub(crate) facing: Option<bool>,
}

impl<P: Sorted<Item = Entry>, S: Sorted<Item = Span>> Model for Interleave<P, S> {
    ghost use Rattle.rk_interleave.specs.Interleaving.{Interleaving};
    ghost use Rattle.rk_interleave.specs.Standing.{IsInterleaving, interleaving};

    ghost Value = { Interleaving P S };

    ghost view = { λ m. interleaving m.points m.spans m.options m.lent m.facing };

    ghost invariant = { λ m. IsInterleaving P.listing P.standing S.listing S.standing m.points (interleaving m.points m.spans m.options m.lent m.facing) };
}

impl<P: Sorted<Item = Entry>, S: Sorted<Item = Span>> Interleave<P, S> {
    /// Over these sources with a copy of the options, not moved yet.
    ///
    /// # Errors
    ///
    /// `NoMemory` where a bound finds no memory.
    pub fn new(
        alloc: Global,
        points: P,
        spans: S,
        options: &IterOptions,
    ) -> Result<Interleave<P, S>, NoMemory>
    where
        P: Drop,
        S: Drop,
        ensures { IfOk result (λ m. m ≡ record { points = points; spans = spans; options = options.now; cursor = Fresh; value = None; span = None; changed = false; facing = None }) }
    {
        let lower = copy_bound(&options.lower)?;
        let upper = copy_bound(&options.upper)?;
        Ok(Interleave {
            points: Bounded::new(points, lower, upper),
            spans,
            options: options.copy()?,
            lent: Lent::new(alloc),
            facing: None,
        })
    }

    /// The key of the cursor, where it is at one.
    pub fn key(&self) -> Option<&[u8]>
        ensures { option_copied result ≡ key_at self.now.cursor }
    {
        Some(self.lent.key()?.bytes())
    }

    /// Whether a point is shown there, and whether the key is in a span.
    pub fn has_point_and_range(&self) -> (bool, bool)
        ensures point { result.0 ≡ is_some self.now.value }
        ensures range { result.1 ≡ is_some self.now.span }
    {
        (self.lent.value().is_some(), self.lent.span().is_some())
    }

    /// The value of the shown point.
    pub fn value(&self) -> Option<&[u8]>
        ensures { option_copied result ≡ self.now.value }
    {
        Some(self.lent.value()?.bytes())
    }

    /// The start and the end of the key's span.
    pub fn range_bounds(&self) -> Option<(&[u8], &[u8])>
        ensures { MatchOption result (self.now.span ≡ None) (λ ends. MatchOption self.now.span ⊥ (λ s. (ends.0.now ≡ s.start) × (ends.1.now ≡ s.end))) }
    {
        let span = self.lent.span()?;
        Some((span.start().bytes(), span.end().bytes()))
    }

    /// The pairs of suffix and value that hold over the key's span, ascending by suffix.
    pub fn range_keys(&self) -> &[SuffixValue]
        ensures { result.now ≡ option_map_or (λ s. s.cover) self.now.span [] }
    {
        match self.lent.span() {
            Some(span) => span.pairs(),
            None => &[],
        }
    }

    /// Whether the last move changed the span or its pairs.
    pub fn range_key_changed(&self) -> bool
        ensures { result ≡ self.now.changed }
    {
        self.lent.changed()
    }

    /// Where it stands.
    pub fn cursor(&self) -> &Cursor
        ensures { result.now ≡ self.now.cursor }
    {
        self.lent.cursor()
    }
}
