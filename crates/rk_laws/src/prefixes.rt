ghost use Rattle.rk_laws.specs.Prefixes.{CoverOfPrefix, CoverOfSpans, PointOfItsOwn, SpansOverPrefix};

/// Where no start or end of a span has a suffix, the same spans are over a key and over its prefix.
pub fn spans_over_a_key_are_those_over_its_prefix()
    ensures { SpansOverPrefix }
{}

/// Where no start or end of a span has a suffix, the cover of a key is the cover of its prefix.
pub fn cover_of_a_key_is_that_of_its_prefix()
    ensures { CoverOfPrefix }
{}

/// Operations on points don't matter to a cover.
pub fn cover_of_a_key_is_that_of_spans()
    ensures { CoverOfSpans }
{}

/// Operations on spans and on other keys don't matter to the value of a point.
pub fn point_of_a_key_is_that_of_its_own_points()
    ensures { PointOfItsOwn }
{}
