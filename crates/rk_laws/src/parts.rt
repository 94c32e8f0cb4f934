ghost use Rattle.rk_laws.specs.Parts.{EachEndHasItsPart};

/// Of a history without empty commits, what comes up to the end of a commit is a first part that ends there, and has
/// exactly the entries numbered at most so.
pub fn each_end_of_a_commit_has_its_part()
    ensures { EachEndHasItsPart }
{}
