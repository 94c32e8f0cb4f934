ghost use Rattle.rk_laws.specs.SameCells.{ChangesOfCovers, MovesOfCells, MovesToKeys, PositionsOfCells, ReportsOfCells, SpanStartsOfCovers, SpansOfCovers, ViewsOfCells};

/// Two lists of entries with the same covers within the bounds have the same widest spans there.
pub fn widest_spans_are_those_of_the_covers()
    ensures { SpansOfCovers }
{}

/// Two lists of entries with the same covers within the bounds have spans that begin at the same keys.
pub fn starts_of_spans_are_those_of_the_covers()
    ensures { SpanStartsOfCovers }
{}

/// Two lists of entries with the same covers and points within the bounds give the same positions.
pub fn positions_are_those_of_the_cells()
    ensures { PositionsOfCells }
{}

/// Two lists of entries with the same covers and points within the bounds give the same report at each key
/// there.
pub fn reports_are_those_of_the_cells()
    ensures { ReportsOfCells }
{}

/// Two lists of entries with the same covers and points within the bounds give the same moves.
pub fn moves_are_those_of_the_cells()
    ensures { MovesOfCells }
{}

/// A move leads to a key within the bounds, or to none.
pub fn a_move_leads_to_a_key_within_the_bounds()
    ensures { MovesToKeys }
{}

/// Two lists of entries with the same covers within the bounds agree whether a move changed the span.
pub fn changes_of_span_are_those_of_the_covers()
    ensures { ChangesOfCovers }
{}

/// Iterators over two lists of entries with the same covers and points within the bounds show the same after
/// each move.
pub fn an_iterator_shows_the_cells_alone()
    ensures { ViewsOfCells }
{}
