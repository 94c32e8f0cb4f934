// The laws of the union that a merge holds. Each is the contract of a function with nothing to do.
ghost use Rattle.rk_merge.specs.Laws.{UnionIsSorted, UnionHasTheirs, SameEntriesSameList, OrderDoesNotMatter};

/// The union of sorted lists of points is a sorted list of points, where no entry of one of them has the key and
/// the number of an entry of another.
#[tactic(auto, using(rk_merge::proofs::Merged::union_is_sorted))]
pub fn the_union_of_sorted_lists_is_sorted()
    ensures { UnionIsSorted }
{}

/// The union has exactly the entries of the lists.
#[tactic(auto, using(rk_merge::proofs::Merged::union_has_theirs))]
pub fn the_union_has_exactly_their_entries()
    ensures { UnionHasTheirs }
{}

/// Two sorted lists of points with the same entries are equal.
#[tactic(auto, using(rk_merge::proofs::Merged::same_entries_same_list))]
pub fn a_sorted_list_is_told_by_its_entries()
    ensures { SameEntriesSameList }
{}

/// Unions of the same entries are equal, in whatever order their lists are merged.
#[tactic(auto, using(rk_merge::proofs::Merged::order_does_not_matter))]
pub fn the_order_of_the_lists_does_not_matter()
    ensures { OrderDoesNotMatter }
{}
