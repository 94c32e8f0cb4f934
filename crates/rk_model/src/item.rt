//! What stands in a sorted list: an item that a cut takes or doesn't.
ghost use Rattle.std.specs.Prelude.{◌≡◌, IsTrue, Bool, List, ℕ, true, false, take, drop};
ghost use Rattle.std.specs.List.Sorted.{IsPartitionedBy};
ghost use Rattle.rk_model.specs.Cuts.{CutsRise, cut_copied};
ghost use Rattle.rk_model.specs.Items.{point_takes, span_takes, keyed_points, keyed_extents};
ghost use Rattle.rk_model.specs.ItemLaws.{points-first, points-rise, points-part, spans-first, spans-rise, spans-part};
ghost use Rattle.rk_model.specs.declared.cut.Cut.{Cut};

use crate::{Cut, Entry, Span};
use rk_key::UserKey;

/// An item of a sorted list.
pub trait Item: Drop {
    /// The item stands before the cut, where it is sought in a direction.
    ghost takes: { Bool → Cut (List ℕ) → Self → Bool };

    /// Items in the order of a source.
    ghost in_order: { List Self → Bool };

    /// A source of such items reads them once and keeps them.
    ghost read_once: { Bool };

    /// Whether the item stands before the cut, where it is sought forward, or backward.
    fn is_before(&self, cut: Cut<&UserKey>, forward: bool) -> bool
        ensures { result ≡ takes forward (cut_copied cut.entry) self.now };

    /// What stands before a cut of sorted items are the first of them.
    ghost first: { (forward : Bool) (cut : Cut (List ℕ)) (xs : List Self) → IsTrue (in_order xs) → IsPartitionedBy (takes forward cut) xs };

    /// What stands before a cut stands before each later one.
    ghost rise: { (forward : Bool) (x : Self) → CutsRise (takes forward) x };

    /// A part of a list in order is in order.
    ghost part: { (from to : ℕ) (xs : List Self) → IsTrue (in_order xs) → IsTrue (in_order (drop from (take to xs))) };
}

impl Item for Entry {
    ghost takes = { λ _ cut e. point_takes cut e };

    ghost in_order = { keyed_points };

    ghost read_once = { false };

    ghost first = { λ _ cut es sorted. points-first cut es sorted };

    ghost rise = { λ _ e. points-rise e };

    ghost part = { points-part };

    #[tactic(auto, using(crate::proofs::Orders::is_ge_is))]
    fn is_before(&self, cut: Cut<&UserKey>, _: bool) -> bool {
        match cut {
            Cut::Start => false,
            Cut::Below(key) => *self.op.key() < *key,
            Cut::Past(key) => *key >= *self.op.key(),
            Cut::End => true,
        }
    }
}

impl Item for Span {
    ghost takes = { span_takes };

    ghost in_order = { keyed_extents };

    ghost read_once = { true };

    ghost first = { spans-first };

    ghost rise = { spans-rise };

    ghost part = { spans-part };

    #[tactic(auto, using(crate::proofs::Orders::is_ge_is))]
    fn is_before(&self, cut: Cut<&UserKey>, forward: bool) -> bool {
        match cut {
            Cut::Start => false,
            Cut::Below(key) | Cut::Past(key) => {
                if forward {
                    *key >= self.end
                } else {
                    self.start < *key
                }
            }
            Cut::End => true,
        }
    }
}
