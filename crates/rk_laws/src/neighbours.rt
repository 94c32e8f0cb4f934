ghost use Rattle.rk_laws.specs.Neighbours.{BeforeSpanDiffers, CursorWithinBounds, PositionsRise, SpanEndDiffers, SpanHasOneCover, SpanOfItsKeys, SpanOfEachCover};

/// Each key within the bounds that has a cover has a widest span, which is over it.
pub fn each_cover_has_a_span()
    ensures { SpanOfEachCover }
{}

/// Each key of a widest span has the cover of the span, and is within the bounds.
pub fn each_key_of_a_span_has_its_cover()
    ensures { SpanHasOneCover }
{}

/// Each key of a widest span has this span.
pub fn each_key_of_a_span_has_this_span()
    ensures { SpanOfItsKeys }
{}

/// The end of a widest span is the upper bound, or has another cover.
pub fn at_the_end_of_a_span_the_cover_is_another()
    ensures { SpanEndDiffers }
{}

/// Just before the start of a widest span, within the bounds, the cover is another.
pub fn before_the_start_of_a_span_the_cover_is_another()
    ensures { BeforeSpanDiffers }
{}

/// The positions of an iterator rise strictly.
pub fn positions_rise_strictly()
    ensures { PositionsRise }
{}

/// After any move a cursor that is at a key is within the bounds.
pub fn a_cursor_at_a_key_is_within_the_bounds()
    ensures { CursorWithinBounds }
{}
