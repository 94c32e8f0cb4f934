ghost use Rattle.rk_machine.specs.Runs.{HistoriesGoOn};

/// The history of the last state of a run begins with that of each state before it, and has no empty commit where
/// that one has none.
pub fn the_history_goes_on()
    ensures { HistoriesGoOn }
{}
