ghost use Rattle.rk_laws.specs.KeptCells.{KeptAtBottomGivesCells, KeptGivesCells};

/// At the number of each stripe, the kept entries give the same point and cover as all of them, whatever
/// other entries there are.
pub fn kept_entries_give_the_same_cells()
    ensures { KeptGivesCells }
{}

/// At the bottom, where no other entry over the key is older, the entries that are kept there do so too.
pub fn entries_kept_at_the_bottom_give_the_same_cells()
    ensures { KeptAtBottomGivesCells }
{}
