// What counts its reads and its faults.
ghost use Rattle.std.specs.Prelude.{◌≡◌};
ghost use Rattle.rk_outside.specs.Counts.{Counts};

/// What is read through, and counts how often: the reads, and those of them that failed. Neither count ever
/// falls, and at its greatest value it stays.
pub trait Counting {
    /// How often a read has failed, and how often it was read through.
    ghost counts: { Self → Counts };

    /// How often a read has failed.
    fn faults(&self) -> u64
        ensures { result ≡ (counts self.now).faults };

    /// How often it was read through.
    fn reads(&self) -> u64
        ensures { result ≡ (counts self.now).reads };
}

/// A reader for what lies in memory: nothing is read through it, and both counts are 0.
#[derive(Clone, Copy, Debug, PartialEq, Eq)]
pub struct NoReads;

impl Counting for NoReads {
    ghost counts = { λ _. record { faults = 0; reads = 0 } };

    fn faults(&self) -> u64 {
        0
    }

    fn reads(&self) -> u64 {
        0
    }
}
