//! Laws of the definitions. The functions do nothing: their contracts are what is proved.

ghost use Rattle.generic_names.specs.Laws.{OneIsBefore, NotBoth, PassedOn, TiesAreEqual, EqualsTie, VeryNameIsFirst, CoversItself, ReadsBack, ResourceIsPattern};
ghost use Rattle.generic_names.specs.Spelled.{Spelled};
ghost use Rattle.generic_names.specs.Best.{BestIsFirst, BestIsMostSpecific};
ghost use Rattle.generic_names.specs.Gap.{GapIsClosed};
ghost use Rattle.generic_names.specs.OrderKey.{KeysCompare, LowerKeyIsBefore, LowerKeyIsBelow, LowerIsPassedOn, EqualKeysAreOne, FirstIsNotLower, FirstsStandTogether};

/// Among the patterns of one kind the order of specificity is total, and two tie only if they are equal.
pub fn order_is_total()
    ensures either { OneIsBefore }
    ensures not_both { NotBoth }
    ensures passed_on { PassedOn }
    ensures ties { TiesAreEqual }
    ensures equals { EqualsTie }
{}

/// A discrete profile of the very name is more specific than every other profile that covers it.
pub fn very_name_is_first()
    ensures first { VeryNameIsFirst }
    ensures itself { CoversItself }
{}

/// What is read has the text that was read, and this reads as the same again. The name of a resource is that
/// of a profile too.
pub fn text_reads_back()
    ensures pattern { ReadsBack }
    ensures resource { ResourceIsPattern }
{}

/// What is more specific than a pattern before the end of a gap lies before it too.
pub fn gap_is_closed()
    ensures { GapIsClosed }
{}

/// The keys of patterns compare as the patterns do, and with the key of a gap's end as the patterns with that end.
pub fn order_keys_order()
    ensures order { KeysCompare }
    ensures before { LowerKeyIsBefore }
    ensures below { LowerKeyIsBelow }
    ensures passed_on { LowerIsPassedOn }
    ensures equal { EqualKeysAreOne }
{}

/// The names with one first qualifier stand together in the order of specificity, and its key tells where they begin.
pub fn first_qualifiers_stand_together()
    ensures not_lower { FirstIsNotLower }
    ensures together { FirstsStandTogether }
{}

/// Of profiles in the order of specificity the best one is the first that covers the name, whatever a profile is.
pub fn best_is_first<T>()
    ensures { (name_of : T → Spelled) → BestIsFirst name_of }
{}

/// The best profile is one of the profiles, it covers the name, and none that covers the name is before it; there is
/// none exactly where no profile covers the name. In whatever order the profiles stand, and whatever a profile is.
pub fn best_is_most_specific<T>()
    ensures { (name_of : T → Spelled) → BestIsMostSpecific name_of }
{}
