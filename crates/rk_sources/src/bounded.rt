//! A source cut at the bounds of an iterator.
ghost use Rattle.std.specs.Prelude.{◌≡◌, ◌<◌, None, Some, IsTrue, OnOk};
ghost use Rattle.std.specs.Option.{option_map};
ghost use Rattle.rk_model.specs.Cuts.{count_before, cut_copied};
ghost use Rattle.rk_model.specs.Standings.{Leads, Costs, can_step, step_gap, step_from, step_to};
ghost use Rattle.rk_sources.specs.Bounds.{lies_beyond, bound_cut, lower_cut, upper_cut, is_inside, lists, stands, Keeps};
ghost use Rattle.rk_sources.specs.BoundLaws.{bounded-ordered, bounded-told, bounded-rise, bounded-free};

use rk_key::UserKey;
use rk_model::{Cut, Item, Sorted, Source};
use rk_outside::{Counting, SourceError};
use std::marker::Model;

/// Of a source the items between two bounds: of points those whose keys are not below the lower bound and are below
/// the upper one, and of spans those that reach into the bounds, whole. A bound that is missing cuts nothing.
///
/// What lies beyond a bound is not walked: a seek beyond it goes to the bound, and where an item beyond it is seen
/// there is none. A turn where nothing is seen is a seek of the bound, or of the end where there is none. It is lost
/// until the first seek, wherever the source stands.
#[derive(Debug, Drop)]
pub struct Bounded<S: Sorted> {
    source: S,
    lower: Option<UserKey>,
    upper: Option<UserKey>,
    facing: Option<bool>,
}

impl<S: Sorted> Model for Bounded<S> {
    ghost use Rattle.std.specs.Prelude.{IfSome};
    ghost use Rattle.rk_sources.specs.Bounds.{Bounding, IsBounding};

    ghost Value = { Bounding S };

    ghost view = { λ b. record { source = b.source; lower = b.lower; upper = b.upper; facing = b.facing } };

    ghost invariant = { λ b. IfSome b.facing (λ forward. IsBounding S.Item.takes b.lower b.upper forward (S.listing b.source).held (S.standing b.source)) };
}

impl<S: Sorted> Bounded<S> {
    /// Of this source what lies between the bounds, lost. It takes no memory.
    pub fn new(source: S, lower: Option<UserKey>, upper: Option<UserKey>) -> Bounded<S>
        ensures { result ≡ record { source = source; lower = lower; upper = upper; facing = None } }
    {
        Bounded {
            source,
            lower,
            upper,
            facing: None,
        }
    }
}

impl<S: Sorted> Sorted for Bounded<S> {
    type Item = S::Item;

    ghost listing = { lists S.Item.takes S.listing };

    ghost standing = { stands S.Item.takes S.listing S.standing };
}

impl<R: Counting, S: Source<R>> Source<R> for Bounded<S> {
    ghost ordered = { λ b. bounded-ordered S.Item.takes b.lower b.upper S.Item.in_order (S.listing b.source).held S.Item.part (S.ordered b.source) };

    ghost told = { λ b. bounded-told S.Item.takes b.lower b.upper b.facing (S.listing b.source) (S.standing b.source) (S.told b.source) };

    ghost rise = { λ b. bounded-rise S.Item.takes b.lower b.upper (S.listing b.source) (S.rise b.source) };

    ghost once = { λ b kept. bounded-free S.Item.takes b.lower b.upper (S.listing b.source) (S.once b.source kept) };

    fn seek(&mut self, reader: &mut R, cut: Cut<&UserKey>, forward: bool) -> Result<(), SourceError>
        ensures leads { Leads (lists S.Item.takes S.listing self.old) (lists S.Item.takes S.listing self.new) (stands S.Item.takes S.listing S.standing self.new) forward (λ xs. Some (count_before (S.Item.takes forward (cut_copied cut.entry)) xs)) result }
        ensures costs { Costs (lists S.Item.takes S.listing self.old) (stands S.Item.takes S.listing S.standing self.old).owed (stands S.Item.takes S.listing S.standing self.new).owed (R.counts reader.old) (R.counts reader.new) 0 ((lists S.Item.takes S.listing self.old).seek_price forward (cut_copied cut.entry)) result }
        ensures kept { Keeps S.listing self.old self.new }
    {
        self.facing = Some(forward);
        if lies_beyond(&self.lower, &self.upper, cut, forward) {
            let bound = bound_cut(&self.lower, &self.upper, forward);
            self.source.seek(reader, bound, forward)
        } else {
            self.source.seek(reader, cut, forward)
        }
    }

    fn step(&mut self, reader: &mut R, forward: bool) -> Result<(), SourceError>
        requires { IsTrue (can_step forward (stands S.Item.takes S.listing S.standing self.old)) }
        ensures leads { Leads (lists S.Item.takes S.listing self.old) (lists S.Item.takes S.listing self.new) (stands S.Item.takes S.listing S.standing self.new) forward (λ xs. option_map (step_gap forward (stands S.Item.takes S.listing S.standing self.old)) (stands S.Item.takes S.listing S.standing self.old).gap) result }
        ensures costs { Costs (lists S.Item.takes S.listing self.old) (stands S.Item.takes S.listing S.standing self.old).owed (stands S.Item.takes S.listing S.standing self.new).owed (R.counts reader.old) (R.counts reader.new) (step_from (lists S.Item.takes S.listing self.old) forward (stands S.Item.takes S.listing S.standing self.old)) (step_to (lists S.Item.takes S.listing self.old) forward (stands S.Item.takes S.listing S.standing self.old)) result }
        ensures fewer { OnOk result ((stands S.Item.takes S.listing S.standing self.old).forward ≡ forward → (stands S.Item.takes S.listing S.standing self.new).left < (stands S.Item.takes S.listing S.standing self.old).left) }
        ensures kept { Keeps S.listing self.old self.new }
    {
        let turns = self.facing != Some(forward);
        let sees = <Self as Source<R>>::here(self).is_some();
        self.facing = Some(forward);
        if turns && !sees {
            let bound = bound_cut(&self.lower, &self.upper, forward);
            self.source.seek(reader, bound, forward)
        } else {
            self.source.step(reader, forward)
        }
    }

    fn here(&self) -> Option<&S::Item> {
        let forward = self.facing?;
        let item = self.source.here()?;
        if is_inside(&self.lower, &self.upper, forward, item) {
            Some(item)
        } else {
            None
        }
    }
}

// An item that is seen in a direction lies between the bounds.
fn is_inside<I: Item>(
    lower: &Option<UserKey>,
    upper: &Option<UserKey>,
    forward: bool,
    item: &I,
) -> bool
    ensures { result ≡ is_inside I.takes lower.now upper.now forward item.now }
{
    if forward {
        item.is_before(upper_cut(upper), false)
    } else {
        !item.is_before(lower_cut(lower), true)
    }
}

// The cut at the lower bound.
fn lower_cut(lower: &Option<UserKey>) -> Cut<&UserKey>
    ensures { cut_copied result ≡ lower_cut lower.now }
{
    match lower {
        Some(key) => Cut::Below(key),
        None => Cut::Start,
    }
}

// The cut at the upper bound.
fn upper_cut(upper: &Option<UserKey>) -> Cut<&UserKey>
    ensures { cut_copied result ≡ upper_cut upper.now }
{
    match upper {
        Some(key) => Cut::Below(key),
        None => Cut::End,
    }
}

// The bound from which one goes in a direction.
fn bound_cut<'a>(
    lower: &'a Option<UserKey>,
    upper: &'a Option<UserKey>,
    forward: bool,
) -> Cut<&'a UserKey>
    ensures { cut_copied result ≡ bound_cut lower.now upper.now forward }
{
    if forward {
        lower_cut(lower)
    } else {
        upper_cut(upper)
    }
}

// The cut lies beyond that bound.
fn lies_beyond(
    lower: &Option<UserKey>,
    upper: &Option<UserKey>,
    cut: Cut<&UserKey>,
    forward: bool,
) -> bool
    ensures { result ≡ lies_beyond lower.now upper.now forward (cut_copied cut.entry) }
{
    match (lower, upper) {
        (Some(low), _) if forward => match cut {
            Cut::Start => true,
            Cut::Below(key) | Cut::Past(key) => *key < *low,
            Cut::End => false,
        },
        (_, Some(high)) if !forward => match cut {
            Cut::Start => false,
            Cut::Below(key) => *high < *key,
            Cut::Past(key) => *key >= *high,
            Cut::End => true,
        },
        _ => false,
    }
}
