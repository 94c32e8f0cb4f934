// The rules that the groups of both logs keep.
ghost use Rattle.std.specs.Prelude.{◌≡◌, ◌+◌, [], ◌∷◌, ◌++◌, List, option_map, ℕ};
ghost use Rattle.rk_model.specs.Lists.{first_of};
ghost use Rattle.rk_log.specs.Logs.{broken_behind, breaks, broken_in_first, broken_in_second, is_gap, is_beyond, is_astride, is_out_of_turn, later, second_first};
ghost use Rattle.rk_log.specs.Due.{IsDue};
ghost use Rattle.rk_log.specs.declared.group.Logged.{Logged};

use crate::Logged;

/// Operations have the numbers below 2^56.
const NUMBERS_END: u128 = 1 << 56;

/// The place of the first group of the first log that breaks a rule.
pub(crate) fn broken_in_first(flushed: u64, first: &[Logged], second: &[Logged]) -> Option<u64>
    ensures { result ≡ broken_in_first flushed first.now second.now }
{
    let taken = if is_second_first(flushed, first, second) {
        second
    } else {
        &[]
    };
    broken_behind(flushed, taken, first)
}

/// The place of the first group of the second log that breaks a rule.
pub(crate) fn broken_in_second(flushed: u64, first: &[Logged], second: &[Logged]) -> Option<u64>
    ensures { result ≡ broken_in_second flushed first.now second.now }
{
    let taken = if is_second_first(flushed, first, second) {
        &[]
    } else {
        first
    };
    broken_behind(flushed, taken, second)
}

/// The number of the first group that begins above `flushed`.
pub(crate) fn first_later(flushed: u64, groups: &[Logged]) -> Option<u64>
    ensures { result ≡ option_map (λ g. g.group.first) (first_of (later flushed groups.now)) }
{
    for logged in groups {
        if logged.group.first > flushed {
            return Some(logged.group.first);
        }
    }
    None
}

/// Whether the groups of the second log are taken before those of the first.
fn is_second_first(flushed: u64, first: &[Logged], second: &[Logged]) -> bool
    ensures { result ≡ second_first flushed first.now second.now }
{
    match (first_later(flushed, first), first_later(flushed, second)) {
        (Some(in_first), Some(in_second)) => in_second < in_first,
        _ => false,
    }
}

/// The place of the first group of a log that breaks a rule, where those of the other log are taken before it.
fn broken_behind(flushed: u64, taken: &[Logged], groups: &[Logged]) -> Option<u64>
    ensures { result ≡ broken_behind flushed (later flushed taken.now) [] groups.now }
{
    let mut due = Due::behind(flushed, taken);
    for logged in groups {
        if due.is_missed_by(logged) {
            return Some(logged.at);
        }
        due.pass(logged);
    }
    None
}

/// The numbers that are due behind groups.
#[derive(Clone, Copy)]
struct Due {
    /// The last number in tables.
    flushed: u64,
    /// The number due in the log, where it had a group.
    in_log: Option<u128>,
    /// The number due where both logs are taken in turn.
    in_turn: u128,
}

impl Due {
    /// What is due at the start of a log, where the groups of the other log are taken before it.
    fn behind(flushed: u64, taken: &[Logged]) -> Due
        ensures { IsDue flushed (later flushed taken.now) [] result }
    {
        let mut in_turn = u128::from(flushed) + 1;
        for logged in taken {
            if logged.group.first > flushed {
                in_turn = logged.group.end();
            }
        }
        Due {
            flushed,
            in_log: None,
            in_turn,
        }
    }

    /// Passes over a group.
    fn pass(&mut self, logged: &Logged)
        ensures { (flushed : ℕ) (others before : List Logged) → IsDue flushed others before self.old →
            IsDue flushed others (before ++ logged.now ∷ []) self.new }
    {
        let end = logged.group.end();
        self.in_log = Some(end);
        if logged.group.first > self.flushed {
            self.in_turn = end;
        }
    }

    /// Whether a group breaks a rule.
    fn is_missed_by(&self, logged: &Logged) -> bool
        ensures { (flushed : ℕ) (others before : List Logged) → IsDue flushed others before self.now →
            result ≡ breaks flushed others before logged.now }
    {
        self.leaves_gap(logged)
            || is_beyond(logged)
            || is_astride(self.flushed, logged)
            || self.is_out_of_turn(logged)
    }

    /// Whether a group does not begin where the one before it in its log ends.
    fn leaves_gap(&self, logged: &Logged) -> bool
        ensures { (flushed : ℕ) (others before : List Logged) → IsDue flushed others before self.now →
            result ≡ is_gap before logged.now }
    {
        match self.in_log {
            Some(due) => u128::from(logged.group.first) != due,
            None => false,
        }
    }

    /// Whether a group that begins above `flushed` does not begin behind those that are taken before it.
    fn is_out_of_turn(&self, logged: &Logged) -> bool
        ensures { (flushed : ℕ) (others before : List Logged) → IsDue flushed others before self.now →
            result ≡ is_out_of_turn flushed (others ++ later flushed before) logged.now }
    {
        logged.group.first > self.flushed && u128::from(logged.group.first) != self.in_turn
    }
}

/// Whether a group has a number that none can have.
fn is_beyond(logged: &Logged) -> bool
    ensures { result ≡ is_beyond logged.now }
{
    logged.group.end() > NUMBERS_END
}

/// Whether a group begins at or below `flushed`, and ends above it.
fn is_astride(flushed: u64, logged: &Logged) -> bool
    ensures { result ≡ is_astride flushed logged.now }
{
    logged.group.first <= flushed && logged.group.end() > u128::from(flushed) + 1
}
