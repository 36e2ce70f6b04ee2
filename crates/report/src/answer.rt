// The answer to a formula.
ghost use Rattle.std.specs.Prelude.{◌≡◌};
ghost use Rattle.report.specs.Answer.{truth_verdict};
ghost use Rattle.report.specs.AnswerText.{verdict_text};

/// What is said of a state: whether it satisfies the formula.
#[derive(Clone, Copy, Debug, PartialEq, Eq)]
pub enum Verdict {
    Satisfied,
    Refuted,
    Undecided,
}

impl Verdict {
    /// The verdict of a truth value.
    pub fn of(holds: bool) -> Verdict
        ensures { result ≡ truth_verdict holds }
    {
        if holds {
            Verdict::Satisfied
        } else {
            Verdict::Refuted
        }
    }

    pub(crate) fn text(&self) -> &'static [u8]
        ensures { result.now ≡ verdict_text self.now }
    {
        match self {
            Verdict::Satisfied => b"satisfied",
            Verdict::Refuted => b"refuted",
            Verdict::Undecided => b"undecided",
        }
    }
}

/// The ends of a bracket round a probability, in units of 10^-12: 1 is 10^12 of them.
#[derive(Clone, Copy, Debug, PartialEq, Eq)]
pub struct Printed {
    pub low: u64,
    pub high: u64,
}

/// What is shown of a probability operator: the horizon of an until, which is the number of jumps up to which the chain was
/// looked at, the brackets of the watched state in the order in which they were taken, and the bracket of each state.
#[derive(Debug, Drop)]
pub struct Shown {
    pub horizon: Option<u32>,
    pub watched: Vec<Printed>,
    pub states: Vec<Printed>,
}

/// The answer to a formula: a verdict for each state, and what is shown where it is a probability operator.
#[derive(Debug, Drop)]
pub struct Answer {
    pub verdicts: Vec<Verdict>,
    pub shown: Option<Shown>,
}
