ghost use Rattle.rk_spanmerge.specs.Merges.{CutSpansAreSpans, EachKeyHasItsRangeKeys, ReadKeysAreDistinct, SortedCutsDiffer};

/// Spans that are cut at each other's ends have at each key exactly the range keys of those that it lies in,
/// newest first.
pub fn each_key_has_its_range_keys()
    ensures { EachKeyHasItsRangeKeys }
{}

/// Of keys that were read, no two that are equal in order differ.
pub fn read_keys_are_distinct()
    ensures { ReadKeysAreDistinct }
{}

/// Spans that are cut at each other's ends are a sorted list of spans, wherever no two range keys over one key
/// have one number.
pub fn cut_spans_are_spans()
    ensures { CutSpansAreSpans }
{}

/// And only there, where ends that no order tells apart have the same bytes: if spans that are cut at each other's
/// ends are a sorted list, no two range keys over one key have one number. So among such ends a merge of sources
/// that are told is told exactly there.
pub fn sorted_cuts_have_differing_keys()
    ensures { SortedCutsDiffer }
{}
