// A source of the tests: a list in blocks, of which the one that was read last is kept.
ghost use Rattle.std.specs.Prelude.{◌≡◌, ◌≤◌, OnOk, OnErr, None, Some, false, length};
ghost use Rattle.rk_outside.specs.Causes.{HasSourceCause};
ghost use Rattle.rk_model.specs.Items.{sound};
ghost use Rattle.rk_model.specs.Standings.{free_listing};
ghost use Rattle.rk_model.specs.Listings.{stands_within};
ghost use Rattle.rk_model.specs.ListingLaws.{listed-told, listed-rise, listed-free};

use rk_key::UserKey;
use rk_model::{Cut, Item, Sorted, Source};
use rk_outside::{Counting, SourceError};
use std::marker::Model;

/// A reader that counts, and fails at the calls from one number up to another.
#[derive(Debug, Drop)]
pub(super) struct Pages {
    reads: u64,
    faults: u64,
    fails_from: u64,
    fails_to: u64,
}

impl Counting for Pages {
    ghost counts = { λ p. record { faults = p.faults; reads = p.reads } };

    fn faults(&self) -> u64 {
        self.faults
    }

    fn reads(&self) -> u64 {
        self.reads
    }
}

impl Pages {
    /// A reader that never fails.
    pub(super) fn new() -> Pages {
        Pages::failing(0, 0)
    }

    /// A reader whose calls with these numbers fail, counted from 1, without the last.
    pub(super) fn failing(fails_from: u64, fails_to: u64) -> Pages {
        Pages {
            reads: 0,
            faults: 0,
            fails_from,
            fails_to,
        }
    }

    fn read(&mut self) -> Result<(), SourceError>
        ensures cause { HasSourceCause (λ file at. false) self.old.faults self.new.faults result }
        ensures later { self.old.reads ≤ self.new.reads }
    {
        let (Some(reads), Some(faults)) = (self.reads.checked_add(1), self.faults.checked_add(1))
        else {
            return Err(SourceError::Memory);
        };
        self.reads = reads;
        if reads < self.fails_from || reads >= self.fails_to {
            return Ok(());
        }
        self.faults = faults;
        Err(SourceError::ReadFault { faults })
    }
}

/// A list in blocks of so many items. It tells nothing: what it reads is counted by the tests.
#[derive(Debug, Drop)]
pub(super) struct Paged<T> {
    items: Vec<T>,
    size: usize,
    kept: Option<usize>,
    gap: Option<usize>,
    forward: bool,
}

impl<T> Model for Paged<T> {
    ghost use Rattle.std.specs.Prelude.{IfSome, ◌≤◌, List, length};
    ghost use Rattle.rk_model.specs.Listings.{Placing};

    ghost Value = { Placing (List T) };

    ghost view = { λ p. record { list = p.items.items; gap = p.gap; forward = p.forward } };

    ghost invariant = { λ p. IfSome p.gap (λ g. g ≤ length p.items.items) };
}

impl<T: Item> Paged<T> {
    /// These items, in blocks of `size`, or all in one where that is 0. None is read yet.
    pub(super) fn new(items: Vec<T>, size: usize) -> Paged<T> {
        Paged {
            items,
            size,
            kept: None,
            gap: None,
            forward: true,
        }
    }

    // Stands at a gap, with the block of the item that is seen there.
    fn stand(&mut self, reader: &mut Pages, gap: usize, forward: bool) -> Result<(), SourceError>
        requires { gap ≤ length self.old.list }
        ensures there { OnOk result (self.new ≡ record { list = self.old.list; gap = Some gap; forward = forward }) }
        ensures same { self.new.list ≡ self.old.list }
        ensures lost { OnErr result (self.new.gap ≡ None) }
        ensures cause { HasSourceCause (λ file at. false) reader.old.faults reader.new.faults result }
        ensures later { reader.old.reads ≤ reader.new.reads }
    {
        self.gap = None;
        let place = if forward {
            Some(gap)
        } else {
            gap.checked_sub(1)
        };
        let seen = place.filter(|place| *place < self.items.len());
        let block = seen.map(|place| place.checked_div(self.size).unwrap_or(0));
        if block.is_some() && block != self.kept {
            reader.read()?;
            self.kept = block;
        }
        self.gap = Some(gap);
        self.forward = forward;
        Ok(())
    }
}

impl<T: Item> Sorted for Paged<T> {
    type Item = T;

    ghost listing = { λ p. free_listing (sound (λ items. false) p.list) };

    ghost standing = { λ p. stands_within p.list p.gap p.forward };
}

impl<T: Item> Source<Pages> for Paged<T> {
    ghost ordered = { λ p. tt };

    ghost told = { λ p. listed-told (λ items. false) p.list p.gap p.forward };

    ghost rise = { λ p. listed-rise (sound (λ items. false) p.list) };

    ghost once = { λ p _. listed-free (sound (λ items. false) p.list) };

    fn seek(
        &mut self,
        reader: &mut Pages,
        cut: Cut<&UserKey>,
        forward: bool,
    ) -> Result<(), SourceError> {
        let gap = self
            .items
            .partition_point(|item| item.is_before(cut, forward));
        self.stand(reader, gap, forward)
    }

    fn step(&mut self, reader: &mut Pages, forward: bool) -> Result<(), SourceError> {
        let Some(gap) = self.gap else {
            return Ok(());
        };
        let next = if forward != self.forward {
            gap
        } else if forward {
            gap + 1
        } else {
            gap - 1
        };
        self.stand(reader, next, forward)
    }

    fn here(&self) -> Option<&T> {
        let gap = self.gap?;
        if self.forward {
            self.items.get(gap)
        } else {
            self.items.get(gap.checked_sub(1)?)
        }
    }
}
