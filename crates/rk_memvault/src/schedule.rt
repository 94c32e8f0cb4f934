// Which calls are to fail, numbered from 1.
ghost use Rattle.std.specs.Prelude.{◌≡◌, ◌↔◌, ◌≤◌, IsTrue};
ghost use Rattle.rk_outside.specs.Calls.{IsNextListed, no_calls, after_call, one_more};

use std::marker::Model;

#[derive(Debug, Drop)]
pub(crate) struct Schedule {
    fail: Vec<u64>,
    made: u64,
    faults: u64,
}

impl Model for Schedule {
    ghost use Rattle.rk_outside.specs.Calls.{Calls};

    ghost Value = { Calls };

    ghost view = { λ s. record { fail = s.fail.items; made = s.made; faults = s.faults } };
}

impl Schedule {
    pub(crate) fn new(fail: Vec<u64>) -> Schedule
        ensures { result ≡ no_calls fail.items }
    {
        Schedule {
            fail,
            made: 0,
            faults: 0,
        }
    }

    pub(crate) fn is_next_listed(&self) -> bool
        ensures { IsTrue result ↔ IsNextListed self.now }
    {
        let made = self.made;
        self.fail
            .iter()
            .any(|number| number.checked_sub(1) == Some(made))
    }

    // Counts one more call, which failed or not.
    pub(crate) fn count(&mut self, failed: bool)
        ensures counted { self.new ≡ after_call failed self.old }
        ensures later { self.old.faults ≤ self.new.faults }
    {
        self.made = self.made.saturating_add(1);
        if failed {
            self.faults = self.faults.saturating_add(1);
        }
    }

    // Counts a fault of something else.
    pub(crate) fn add_fault(&mut self)
        ensures counted { self.new ≡ record self.old { faults = one_more self.old.faults } }
        ensures later { self.old.faults ≤ self.new.faults }
    {
        self.faults = self.faults.saturating_add(1);
    }

    pub(crate) fn made(&self) -> u64
        ensures { result ≡ self.now.made }
    {
        self.made
    }

    pub(crate) fn faults(&self) -> u64
        ensures { result ≡ self.now.faults }
    {
        self.faults
    }
}
