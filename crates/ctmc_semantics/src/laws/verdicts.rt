// The laws of brackets and thresholds.
ghost use Rattle.ctmc_semantics.specs.VerdictLaws.{ConstantMeets, FailingIsNotMeeting, ProbabilityIsDecided, BoundedUntilIsDecided};
ghost use Rattle.ctmc_semantics.specs.VerdictLaws.{UnboundedUntilIsDecided, UndecidedIsInside};

/// The value of a constant sequence meets a threshold exactly where its member does.
pub fn constant_meets()
    ensures { ConstantMeets }
{}

/// A value that fails a threshold doesn't meet it.
pub fn failing_is_not_meeting()
    ensures { FailingIsNotMeeting }
{}

/// A bracket that contains a probability decides each threshold on it.
pub fn probability_is_decided()
    ensures { ProbabilityIsDecided }
{}

/// A bracket that contains an until decides each threshold on its value.
pub fn until_is_decided()
    ensures bounded { BoundedUntilIsDecided }
    ensures unbounded { UnboundedUntilIsDecided }
{}

/// A threshold that a bracket doesn't decide lies in it.
pub fn undecided_is_inside()
    ensures { UndecidedIsInside }
{}
