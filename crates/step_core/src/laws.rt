// The laws of sound plans, each the contract of a function.
ghost use Rattle.step_core.specs.PlanLaws.{FrameRowsAreWhole, LowTableRounds, HighTableRounds, BoundedHighTableRounds};
ghost use Rattle.step_core.specs.PlanLaws.{UnboundedHighTableIsAbove};
ghost use Rattle.step_core.specs.GoodLaws.{WordsLieBeside, FirstLayerIsDone, SealsAreSetOrNot, FirstLayerIsSealed, SealedIsDone};
ghost use Rattle.step_core.specs.GoodLaws.{NotesAreNoBetter, SealNotesAreNoBetter, StopIsSetOrNot, StopNotesAreNoBetter};
ghost use Rattle.step_core.specs.GoodLaws.{DrawsHaveRoom, TicketsAreBelow, TicketsStandOnce, TicketsAreApart};
ghost use Rattle.step_core.specs.ReachLaws.{WalksAreFound};

/// The numbers of each row of a sound frame add up to its divisor, which is positive.
pub fn frame_rows_are_whole()
    ensures { FrameRowsAreWhole }
{}

/// The tables of a sound plan are near the probabilities for which its rows stand, the lower one
/// from below and the upper one from above.
pub fn plan_tables_round()
    ensures low { LowTableRounds }
    ensures high { HighTableRounds }
    ensures bounded { BoundedHighTableRounds }
    ensures unbounded { UnboundedHighTableIsAbove }
{}

/// Whether a walk leads from a state to a goal is decided by letting one state after another stand
/// between.
pub fn walks_are_found()
    ensures { WalksAreFound }
{}

/// Over a good machine each word lies on its side of the tables, layer 0 and each sealed block are
/// at the tables, no note of a live pass is better than its word, there is room for all draws that
/// live passes have left, and all their tickets are below the next one and differ.
pub fn good_machine_bounds()
    ensures words { WordsLieBeside }
    ensures first_layer { FirstLayerIsDone }
    ensures seals { SealsAreSetOrNot }
    ensures first_seals { FirstLayerIsSealed }
    ensures sealed { SealedIsDone }
    ensures notes { NotesAreNoBetter }
    ensures seal_notes { SealNotesAreNoBetter }
    ensures stop { StopIsSetOrNot }
    ensures stop_notes { StopNotesAreNoBetter }
    ensures draws { DrawsHaveRoom }
    ensures tickets { TicketsAreBelow }
    ensures once { TicketsStandOnce }
    ensures apart { TicketsAreApart }
{}
