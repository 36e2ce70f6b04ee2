// When brackets are narrow enough.

ghost use Rattle.std.specs.Prelude.{◌≡◌, Bool, false};
ghost use Rattle.step_core.specs.declared.bracket.Bracket.{Bracket};

use step_core::Bracket;

/// A test of whether a bracket is narrow enough: a run may end once each state's is.
pub trait Enough: Sync {
    /// Whether the bracket is narrow enough.
    ghost is_enough: { Self → Bracket → Bool };

    /// Whether the bracket is narrow enough.
    fn enough(&self, bracket: Bracket) -> bool
        ensures { result ≡ is_enough self.now bracket };
}

// No bracket is: the run goes on to its end.
pub(crate) struct Never;

impl Enough for Never {
    ghost is_enough = { λ never bracket. false };

    fn enough(&self, _bracket: Bracket) -> bool {
        false
    }
}
