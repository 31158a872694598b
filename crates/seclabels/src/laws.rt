//! Laws of the definitions. The functions do nothing: their contracts are what is proved.

ghost use Rattle.seclabels.specs.Laws.{DominatesItself, DominancePassedOn, EachOtherAreOne, HighDominatesAll, AllDominateLow};

/// Dominance is an order: every label dominates itself, dominance is passed on, and two labels that dominate each
/// other are one label. SYSHIGH dominates every label, and every label dominates SYSLOW.
pub fn dominance_is_an_order()
    ensures itself { DominatesItself }
    ensures passed_on { DominancePassedOn }
    ensures each_other { EachOtherAreOne }
    ensures high { HighDominatesAll }
    ensures low { AllDominateLow }
{}
