ghost use Rattle.rk_fragment.specs.Fragments.{EachKeyHasItsRangeKeys, FragmentsAreSpans};

/// The range keys over a key are exactly those of the entries over it, newest first.
pub fn each_key_has_its_range_keys()
    ensures { EachKeyHasItsRangeKeys }
{}

/// Where no two entries have one number, the spans are in order, with the newest range keys first.
pub fn fragments_are_spans()
    ensures { FragmentsAreSpans }
{}
