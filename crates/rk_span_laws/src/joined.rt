ghost use Rattle.rk_span_laws.specs.JoinedLaws.{JoinedAreInOrder, JoinedHaveTheCovers, JoinedStayJoined, NoSpanNoCover, SpanHasItsCover};

/// At each key of a span of a list in order the cover is that of the span's range keys alone.
pub fn spans_have_their_covers()
    ensures { SpanHasItsCover }
{}

/// A key that lies in no span has no cover.
pub fn a_key_of_no_span_has_no_cover()
    ensures { NoSpanNoCover }
{}

/// The widest spans of spans in order are in order.
pub fn joined_spans_are_in_order()
    ensures { JoinedAreInOrder }
{}

/// Of spans with the newest range keys first, the widest spans give the same covers within the bounds.
pub fn joined_spans_have_the_covers()
    ensures { JoinedHaveTheCovers }
{}

/// And they are the widest spans of themselves.
pub fn joined_spans_stay_joined()
    ensures { JoinedStayJoined }
{}
