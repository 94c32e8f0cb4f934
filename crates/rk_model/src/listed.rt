//! Sources over lists in memory.
ghost use Rattle.std.specs.Prelude.{◌≡◌, ◌≤◌, List, Some, None, true, IsTrue, min, length};
ghost use Rattle.std.specs.Option.{option_map};
ghost use Rattle.rk_model.specs.Cuts.{cut_copied, count_before, gap_on};
ghost use Rattle.rk_model.specs.Items.{sound};
ghost use Rattle.rk_model.specs.Standings.{free_listing};
ghost use Rattle.rk_model.specs.Listings.{stands_within};
ghost use Rattle.rk_model.specs.ListingLaws.{of_sound, listed-told, listed-rise, listed-free};

use crate::{Cut, Entry, Item, Sorted, Source, Span};
use rk_key::UserKey;
use rk_outside::{Counting, SourceError};
use std::marker::Model;

/// What lends a list of items.
pub trait Lends: Drop {
    /// What it lends.
    type Item: Item;

    /// The items, which no call changes.
    ghost items: { Self → List Self.Item };

    /// Lends the items.
    fn items(&self) -> &[Self::Item]
        ensures { result.now ≡ items self.now };
}

impl<T: Item> Lends for Vec<T> {
    type Item = T;

    ghost items = { λ v. v.items };

    fn items(&self) -> &[T] {
        self
    }
}

/// A source over a list in memory, which reads nothing. A list that is not in order isn't told.
#[derive(Debug, Drop)]
pub struct Listed<L: Lends> {
    list: L,
    gap: Option<usize>,
    forward: bool,
}

/// A source of the points of a list.
pub type ListPoints = Listed<Vec<Entry>>;

/// A source of the spans of a list.
pub type ListSpans = Listed<Vec<Span>>;

impl<L: Lends> Model for Listed<L> {
    ghost use Rattle.std.specs.Prelude.{IfSome, ◌≤◌, length};
    ghost use Rattle.rk_model.specs.Listings.{Placing};

    ghost Value = { Placing L };

    ghost view = { λ s. record { list = s.list; gap = s.gap; forward = s.forward } };

    ghost invariant = { λ s. IfSome s.gap (λ g. g ≤ length (L.items s.list)) };
}

impl<L: Lends> Listed<L> {
    /// A source of these items, at no gap. It takes no memory.
    pub fn new(list: L) -> Listed<L>
        ensures { result ≡ record { list = list; gap = None; forward = true } }
    {
        Listed {
            list,
            gap: None,
            forward: true,
        }
    }
}

impl<L: Lends> Sorted for Listed<L> {
    type Item = L::Item;

    ghost listing = { λ s. free_listing (sound L.Item.in_order (L.items s.list)) };

    ghost standing = { λ s. stands_within (L.items s.list) s.gap s.forward };
}

impl<R: Counting, L: Lends> Source<R> for Listed<L> {
    ghost ordered = { λ s. of_sound L.Item.in_order (L.items s.list) (λ xs. IsTrue (L.Item.in_order xs)) (λ holds. holds) };

    ghost told = { λ s. listed-told L.Item.in_order (L.items s.list) s.gap s.forward };

    ghost rise = { λ s. listed-rise (sound L.Item.in_order (L.items s.list)) };

    ghost once = { λ s _. listed-free (sound L.Item.in_order (L.items s.list)) };

    fn seek(&mut self, _: &mut R, cut: Cut<&UserKey>, forward: bool) -> Result<(), SourceError> {
        self.gap = Some(count_before(self.list.items(), cut, forward));
        self.forward = forward;
        Ok(())
    }

    fn step(&mut self, _: &mut R, forward: bool) -> Result<(), SourceError> {
        if self.forward != forward {
            self.forward = forward;
            return Ok(());
        }
        let len = self.list.items().len();
        self.gap = self.gap.map(|gap| gap_on(gap, len, forward));
        Ok(())
    }

    fn here(&self) -> Option<&L::Item> {
        let items = self.list.items();
        let gap = self.gap?;
        if self.forward {
            items.get(gap)
        } else {
            items.get(gap.checked_sub(1)?)
        }
    }
}

// The next gap of so many items, and the last one at the end.
fn gap_on(gap: usize, len: usize, forward: bool) -> usize
    ensures { result ≡ min len (gap_on forward gap) }
{
    if !forward {
        gap.saturating_sub(1).min(len)
    } else if gap < len {
        gap + 1
    } else {
        len
    }
}

// How many items stand before the cut.
fn count_before<T: Item>(items: &[T], cut: Cut<&UserKey>, forward: bool) -> usize
    ensures within { result ≤ length items.now }
    ensures sorted { IsTrue (T.in_order items.now) → result ≡ count_before (T.takes forward (cut_copied cut.entry)) items.now }
{
    items.partition_point(|item| item.is_before(cut, forward))
}
