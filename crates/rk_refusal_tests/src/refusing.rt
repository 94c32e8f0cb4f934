// A source of the tests that refuses one call.
ghost use Rattle.std.specs.Prelude.{◌≡◌, ◌≤◌, OnOk, OnErr, None, Some, false, length};
ghost use Rattle.rk_outside.specs.Causes.{HasSourceCause};
ghost use Rattle.rk_model.specs.Items.{sound};
ghost use Rattle.rk_model.specs.Standings.{free_listing};
ghost use Rattle.rk_model.specs.Listings.{stands_within};
ghost use Rattle.rk_model.specs.ListingLaws.{listed-told, listed-rise, listed-free};

use rk_iter::Inside;
use rk_key::UserKey;
use rk_model::{Cut, Entry, Item, Sorted, Source, Span};
use rk_outside::{Counting, SourceError};
use std::marker::Model;

/// What an iterator over such sources is.
pub(super) type Refused = Inside<Refusing<Entry>, Refusing<Span>>;

/// Why a call is refused.
#[derive(Clone, Copy, Debug, PartialEq, Eq)]
pub(super) enum Refusal {
    /// There is no memory.
    Memory,
    /// The reader fails.
    Fault,
}

/// A reader that counts the calls of the sources that read through it, and refuses one of them.
#[derive(Debug, Drop)]
pub(super) struct Calls {
    calls: u64,
    faults: u64,
    refused: u64,
    refusal: Refusal,
}

impl Counting for Calls {
    ghost counts = { λ c. record { faults = c.faults; reads = c.calls } };

    fn faults(&self) -> u64 {
        self.faults
    }

    fn reads(&self) -> u64 {
        self.calls
    }
}

impl Calls {
    /// Refuses the call of this number, counted from 1.
    pub(super) fn refusing(number: u64, refusal: Refusal) -> Calls {
        Calls {
            calls: 0,
            faults: 0,
            refused: number,
            refusal,
        }
    }

    /// Whether the call that is refused was made.
    pub(super) fn has_refused(&self) -> bool {
        self.calls >= self.refused
    }

    /// Whether the refusal is the one that is made.
    pub(super) fn gives(&self, error: SourceError) -> bool {
        match self.refusal {
            Refusal::Memory => error == SourceError::Memory,
            Refusal::Fault => error == SourceError::ReadFault { faults: 1 },
        }
    }

    // Counts a call, and refuses it where it is the one.
    fn call(&mut self) -> Result<(), SourceError>
        ensures cause { HasSourceCause (λ file at. false) self.old.faults self.new.faults result }
        ensures later { self.old.calls ≤ self.new.calls }
    {
        let (Some(calls), Some(faults)) = (self.calls.checked_add(1), self.faults.checked_add(1))
        else {
            return Err(SourceError::Memory);
        };
        self.calls = calls;
        if calls != self.refused {
            return Ok(());
        }
        match self.refusal {
            Refusal::Memory => Err(SourceError::Memory),
            Refusal::Fault => {
                self.faults = faults;
                Err(SourceError::ReadFault { faults })
            }
        }
    }
}

/// A list in memory of which each call may be refused. It tells nothing, and what it shows is seen by the tests.
#[derive(Debug, Drop)]
pub(super) struct Refusing<T> {
    items: Vec<T>,
    gap: Option<usize>,
    forward: bool,
}

impl<T> Model for Refusing<T> {
    ghost use Rattle.std.specs.Prelude.{IfSome, ◌≤◌, List, length};
    ghost use Rattle.rk_model.specs.Listings.{Placing};

    ghost Value = { Placing (List T) };

    ghost view = { λ r. record { list = r.items.items; gap = r.gap; forward = r.forward } };

    ghost invariant = { λ r. IfSome r.gap (λ g. g ≤ length r.items.items) };
}

impl<T: Item> Refusing<T> {
    /// A source of these items, at no gap.
    pub(super) fn new(items: Vec<T>) -> Refusing<T> {
        Refusing {
            items,
            gap: None,
            forward: true,
        }
    }

    // Goes to a gap, or is lost where the call is refused.
    fn go_to(&mut self, calls: &mut Calls, gap: usize, forward: bool) -> Result<(), SourceError>
        requires { gap ≤ length self.old.list }
        ensures there { OnOk result (self.new ≡ record { list = self.old.list; gap = Some gap; forward = forward }) }
        ensures same { self.new.list ≡ self.old.list }
        ensures lost { OnErr result (self.new.gap ≡ None) }
        ensures cause { HasSourceCause (λ file at. false) calls.old.faults calls.new.faults result }
        ensures later { calls.old.calls ≤ calls.new.calls }
    {
        self.gap = None;
        calls.call()?;
        self.gap = Some(gap);
        self.forward = forward;
        Ok(())
    }
}

impl<T: Item> Sorted for Refusing<T> {
    type Item = T;

    ghost listing = { λ r. free_listing (sound (λ items. false) r.list) };

    ghost standing = { λ r. stands_within r.list r.gap r.forward };
}

impl<T: Item> Source<Calls> for Refusing<T> {
    ghost ordered = { λ r. tt };

    ghost told = { λ r. listed-told (λ items. false) r.list r.gap r.forward };

    ghost rise = { λ r. listed-rise (sound (λ items. false) r.list) };

    ghost once = { λ r _. listed-free (sound (λ items. false) r.list) };

    fn seek(
        &mut self,
        calls: &mut Calls,
        cut: Cut<&UserKey>,
        forward: bool,
    ) -> Result<(), SourceError> {
        let gap = self
            .items
            .partition_point(|item| item.is_before(cut, forward));
        self.go_to(calls, gap, forward)
    }

    fn step(&mut self, calls: &mut Calls, forward: bool) -> Result<(), SourceError> {
        let Some(gap) = self.gap else {
            return Ok(());
        };
        let next = if forward != self.forward {
            gap
        } else if forward {
            gap + 1
        } else {
            gap - 1
        };
        self.go_to(calls, next, forward)
    }

    fn here(&self) -> Option<&T> {
        let gap = self.gap?;
        if self.forward {
            self.items.get(gap)
        } else {
            self.items.get(gap.checked_sub(1)?)
        }
    }
}
