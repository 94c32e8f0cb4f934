ghost use Rattle.rk_coalesce.specs.SpanKeys.{CoverAtEachKey, KeptAtEachKey};

/// What `coalesce` answers is the cover at each key of the span.
pub fn the_cover_of_a_span_is_that_of_its_keys()
    ensures { CoverAtEachKey }
{}

/// What `coalesce_stripes` answers are the entries that are kept at each key of the span.
pub fn what_a_span_keeps_is_what_its_keys_keep()
    ensures { KeptAtEachKey }
{}
