ghost use Rattle.rk_laws.specs.SameEntries.{CellsInAnyOrder, CoverOfEffects, PointOfElements};

/// A cover is that of what the spans over the key do, by their numbers: neither their order nor where they
/// begin and end matters to it.
pub fn cover_is_that_of_what_the_spans_do()
    ensures { CoverOfEffects }
{}

/// The value of a point is that of the operations on it, by their numbers, in any order.
pub fn point_is_that_of_its_operations_in_any_order()
    ensures { PointOfElements }
{}

/// The order of the entries matters to no cover and to no point.
pub fn the_order_of_entries_does_not_matter()
    ensures { CellsInAnyOrder }
{}
