// The newest range key at each place.
ghost use Rattle.std.specs.Prelude.{◌≡◌, max, if◌then◌else◌, OnOk};
ghost use Rattle.std.specs.Ordering.{is_eq};
ghost use Rattle.rk_coalesce.specs.Places.{Place, place_cmp};
ghost use Rattle.rk_coalesce.specs.Numbers.{newest_at};

use crate::place::Place;
use rk_outside::NoMemory;
use std::alloc::Global;
use std::collections::BTreeMap;

/// The greatest number that was noted at each place.
#[derive(Drop)]
pub(crate) struct Newest {
    numbers: BTreeMap<Place, u64>,
}

impl Newest {
    pub(crate) fn new(alloc: Global) -> Newest
        ensures { (p : Place) → newest_at result p ≡ 0 }
    {
        Newest {
            numbers: BTreeMap::new(alloc),
        }
    }

    pub(crate) fn number(&self, place: &Place) -> u64
        ensures { result ≡ newest_at self.now place.now }
    {
        self.numbers.get(place).copied().unwrap_or(0)
    }

    pub(crate) fn note(&mut self, place: Place, number: u64) -> Result<(), NoMemory>
        ensures { OnOk result ((p : Place) → newest_at self.new p ≡ (if is_eq (place_cmp place p) then max (newest_at self.old place) number else newest_at self.old p)) }
    {
        let newest = self.number(&place).max(number);
        self.numbers.insert(place, newest)?;
        Ok(())
    }
}
