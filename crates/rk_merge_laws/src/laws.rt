ghost use Rattle.rk_merge_laws.specs.Cells.{GivenHasTheCells};
ghost use Rattle.rk_merge_laws.specs.MergedCovers.{MergedSpanHasTheCover};
ghost use Rattle.rk_merge_laws.specs.PointValues.{VisibleIsThePoint};
ghost use Rattle.rk_merge_laws.specs.Told.{PointsAreTold, SpansAreTold};

/// The union of points that are told is told, where over each key no two entries have one number.
pub fn merged_points_are_told()
    ensures { PointsAreTold }
{}

/// And so are spans of fragments that are told, cut at each other's ends.
pub fn merged_spans_are_told()
    ensures { SpansAreTold }
{}

/// Over each key there is at most one entry that is visible at a number. It has the value of the point there, and there
/// is none exactly where the point has no value.
pub fn what_is_visible_is_the_point()
    ensures { VisibleIsThePoint }
{}

/// There, at each key of a merged span the cover that `coalesce` answers at a number is the cover of the entries.
pub fn a_merged_span_has_the_cover()
    ensures { MergedSpanHasTheCover }
{}

/// What an iterator is over: the points of the chunks within its bounds, merged and visible at a number, and the widest
/// spans of the merged fragments. They are told, and have the points and covers of the entries numbered at most so.
pub fn the_sources_give_the_cells()
    ensures { GivenHasTheCells }
{}
