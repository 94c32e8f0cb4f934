ghost use Rattle.rk_span_laws.specs.GivenLaws.{
  MaskedIsHidden,
  PointIsTheOneThere,
  SoonestPlaceIsThePosition,
  SpanIsTheOneOver,
};

/// Over single puts and the widest spans within the bounds, a key within the bounds has the span that it lies in, with
/// its cover, or none where it lies in none.
pub fn span_is_the_one_over()
    ensures { SpanIsTheOneOver }
{}

/// There, the point on a key has the value of the put on that key, and none where no put is.
pub fn point_is_the_one_there()
    ensures { PointIsTheOneThere }
{}

/// There, the mask hides the point on a key within the bounds exactly where it does by the range keys of the span that
/// the key lies in.
pub fn masked_is_hidden()
    ensures { MaskedIsHidden }
{}

/// There, the positions are the keys of the points within the bounds that the mask does not hide and the starts of the
/// spans: the first of these in a direction that passes a test is the first position that does.
pub fn soonest_place_is_the_position()
    ensures { SoonestPlaceIsThePosition }
{}
