// Which calls of an object in memory are to fail.
ghost use Rattle.std.specs.Prelude.{◌≡◌, ◌≤◌, ◌↔◌, IsTrue};
ghost use Rattle.rk_outside.specs.Calls.{IsNextListed, no_calls, after_call};

use std::marker::Model;

#[derive(Debug, Drop)]
pub(crate) struct Schedule<'a> {
    fail: &'a [u64],
    made: u64,
    faults: u64,
}

impl<'a> Model for Schedule<'a> {
    ghost use Rattle.rk_outside.specs.Calls.{Calls};

    ghost Value = { Calls };

    ghost view = { λ s. record { fail = s.fail.now; made = s.made; faults = s.faults } };
}

impl<'a> Schedule<'a> {
    pub(crate) fn new(fail: &'a [u64]) -> Schedule<'a>
        ensures { result ≡ no_calls fail.now }
    {
        Schedule {
            fail,
            made: 0,
            faults: 0,
        }
    }

    // Counts one more call, and says whether it fails.
    pub(crate) fn next_fails(&mut self) -> bool
        ensures listed { IsTrue result ↔ IsNextListed self.old }
        ensures counted { self.new ≡ after_call result self.old }
        ensures later { self.old.faults ≤ self.new.faults }
    {
        let made = self.made;
        let fails = self
            .fail
            .iter()
            .any(|number| number.checked_sub(1) == Some(made));
        self.made = made.saturating_add(1);
        if fails {
            self.faults = self.faults.saturating_add(1);
        }
        fails
    }

    pub(crate) fn faults(&self) -> u64
        ensures { result ≡ self.now.faults }
    {
        self.faults
    }
}
