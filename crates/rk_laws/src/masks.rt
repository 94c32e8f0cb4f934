ghost use Rattle.rk_laws.specs.Masks.{ShownAtOwnSuffix, ShownBeforeMask, ShownWithoutMask, ShownWithoutSuffix};

/// A range key hides no point of its own suffix, and none whose suffix stands before its own.
pub fn a_range_key_hides_no_point_of_its_own_suffix()
    ensures { ShownAtOwnSuffix }
{}

/// A range key whose suffix stands before the mask hides no point.
pub fn a_range_key_before_the_mask_hides_nothing()
    ensures { ShownBeforeMask }
{}

/// A point without a suffix is never hidden.
pub fn a_point_without_a_suffix_is_shown()
    ensures { ShownWithoutSuffix }
{}

/// Without a mask, and under an empty one, no point is hidden.
pub fn without_a_mask_each_point_is_shown()
    ensures { ShownWithoutMask }
{}
