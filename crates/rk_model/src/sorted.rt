//! Sources: a sorted list, and a gap of it, seen in a direction.
ghost use Rattle.std.specs.Prelude.{◌≡◌, ◌<◌, ◌≤◌, ℕ, List, IsTrue, IsSome, IfSome, OnOk, Some, true, false};
ghost use Rattle.std.specs.Option.{option_copied, option_map};
ghost use Rattle.rk_model.specs.Cuts.{cut_copied, count_before, gap_past, is_passed};
ghost use Rattle.rk_model.specs.Standings.{Listing, Standing, Leads, Costs, IsTold, WalksRise, IsFree, can_step, step_gap, step_from, step_to, walked, pass_to};
ghost use Rattle.rk_model.specs.declared.cut.Cut.{Cut};

use crate::{Cut, Item};
use rk_key::UserKey;
use rk_outside::{Counting, SourceError};

/// What contracts see of a source, whatever it reads through.
pub trait Sorted {
    /// What it lists.
    type Item: Item;

    /// The list and what may be read of it, which no call changes.
    ghost listing: { Self → Listing Self.Item };

    /// The gap where it stands, the direction, what is seen there and what is owed.
    ghost standing: { Self → Standing Self.Item };
}

/// A sorted list, and a gap of it, seen in a direction. No call changes the list. Before the first seek and
/// after a refusal the gap is not known, and only a seek may follow. What it reads it reads through a reader
/// that counts.
///
/// # Errors
///
/// Of every call: `Memory`; `ReadFault` only where the reader's count of faults rose in this call, with that
/// count; and `BadTable` only where the list isn't told, of a place that the source may name. All else leaves
/// that count.
pub trait Source<R: Counting>: Sorted {
    /// Goes to the gap of a cut.
    fn seek(&mut self, reader: &mut R, cut: Cut<&UserKey>, forward: bool) -> Result<(), SourceError>
        ensures leads { Leads (Self.listing self.old) (Self.listing self.new) (Self.standing self.new) forward (λ xs. Some (count_before (Self.Item.takes forward (cut_copied cut.entry)) xs)) result }
        ensures costs { Costs (Self.listing self.old) (Self.standing self.old).owed (Self.standing self.new).owed (R.counts reader.old) (R.counts reader.new) 0 ((Self.listing self.old).seek_price forward (cut_copied cut.entry)) result };

    /// Goes on to the gap of a cut, if that is not where it stands or behind.
    fn pass(&mut self, reader: &mut R, cut: Cut<&UserKey>, forward: bool) -> Result<(), SourceError>
        requires known { IsSome (Self.standing self.old).gap }
        requires faces { (Self.standing self.old).forward ≡ forward }
        ensures leads { Leads (Self.listing self.old) (Self.listing self.new) (Self.standing self.new) forward (λ xs. option_map (gap_past forward (count_before (Self.Item.takes forward (cut_copied cut.entry)) xs)) (Self.standing self.old).gap) result }
        ensures costs { Costs (Self.listing self.old) (Self.standing self.old).owed (Self.standing self.new).owed (R.counts reader.old) (R.counts reader.new) (walked (Self.listing self.old) forward (Self.standing self.old).gap) (pass_to (Self.listing self.old) forward (Self.Item.takes forward (cut_copied cut.entry)) (Self.standing self.old)) result }
        ensures beyond { OnOk result (IfSome (Self.standing self.new).here (λ x. is_passed forward (Self.Item.takes forward (cut_copied cut.entry) x) ≡ false)) }
        ensures left { OnOk result ((Self.standing self.new).left ≤ (Self.standing self.old).left) }
        ensures fewer { OnOk result (IfSome (Self.standing self.old).here (λ x. IsTrue (is_passed forward (Self.Item.takes forward (cut_copied cut.entry) x)) → (Self.standing self.new).left < (Self.standing self.old).left)) }
    {
        while let Some(item) = self.here() {
            if item.is_before(cut, forward) != forward {
                break;
            }
            self.step(reader, forward)?;
        }
        Ok(())
    }

    /// Goes one item on in its direction, or turns to the other side of the gap.
    fn step(&mut self, reader: &mut R, forward: bool) -> Result<(), SourceError>
        requires { IsTrue (can_step forward (Self.standing self.old)) }
        ensures leads { Leads (Self.listing self.old) (Self.listing self.new) (Self.standing self.new) forward (λ xs. option_map (step_gap forward (Self.standing self.old)) (Self.standing self.old).gap) result }
        ensures costs { Costs (Self.listing self.old) (Self.standing self.old).owed (Self.standing self.new).owed (R.counts reader.old) (R.counts reader.new) (step_from (Self.listing self.old) forward (Self.standing self.old)) (step_to (Self.listing self.old) forward (Self.standing self.old)) result }
        ensures fewer { OnOk result ((Self.standing self.old).forward ≡ forward → (Self.standing self.new).left < (Self.standing self.old).left) };

    /// Lends the item that is seen from the gap, if there is one.
    fn here(&self) -> Option<&Self::Item>
        ensures { option_copied result ≡ (Self.standing self.now).here };

    /// What is told is in order.
    ghost ordered: { (s : Self) → IfSome (Self.listing s).held (λ xs. IsTrue (Self.Item.in_order xs)) };

    /// What is seen is what the list has there.
    ghost told: { (s : Self) → IsTold (Self.listing s) (Self.standing s) };

    /// A longer walk reads no less.
    ghost rise: { (s : Self) → WalksRise (Self.listing s) };

    /// Of items that are read once there is nothing to pay but what is owed.
    ghost once: { (s : Self) → IsTrue Self.Item.read_once → IsFree (Self.listing s) };
}
