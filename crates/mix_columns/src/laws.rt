// The laws of the mix, each the contract of a function.
ghost use Rattle.mix_columns.specs.MixLaws.{MixRises, RestShrinks, RestEnclosesWhole};
ghost use Rattle.mix_columns.specs.PlanUntil.{OneThreadContains, EnclosingContainsUntil, OneThreadIsNarrow, OneThreadIsNear};

/// The mix of a sound plan never falls when words rise.
pub fn mix_rises()
    ensures { MixRises }
{}

/// The bracket of the first words of two columns encloses that of one word more, and the mix of the
/// whole columns.
pub fn rest_shrinks()
    ensures rest { RestShrinks }
    ensures whole { RestEnclosesWhole }
{}

/// A state's bracket as one thread computes it contains the until of the plan; where the sets are
/// known exactly, that of a bounded until is narrow, and that of an unbounded one near the exact
/// values. Each bracket that encloses one which contains the until contains it too.
pub fn one_thread_contains()
    ensures contains { OneThreadContains }
    ensures enclosing { EnclosingContainsUntil }
    ensures narrow { OneThreadIsNarrow }
    ensures near { OneThreadIsNear }
{}
