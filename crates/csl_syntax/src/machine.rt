// How far the tokens of a line are read.
use crate::formula::{Bound, Formula, Op};
use crate::limits::MOST_NESTED;
use decimal_text::Decimal;
use std::alloc::{AllocError, Global};

/// What a formula that is not at its end is part of.
#[derive(Drop)]
pub enum Kind {
    Parens,
    OfNext(Op, Decimal),
    UntilLeft(Op, Decimal),
    UntilRight(Op, Decimal, Box<Formula>, Bound),
}

/// What has come of the fixed parts of a probability operator.
#[derive(Drop)]
pub enum Phase {
    Brace,
    Compare,
    Threshold(Op),
    Close(Op, Decimal),
    Bracket(Op, Decimal),
    Path(Op, Decimal),
    Start(Op, Decimal, Box<Formula>),
    Zero(Op, Decimal, Box<Formula>),
    Comma(Op, Decimal, Box<Formula>),
    Limit(Op, Decimal, Box<Formula>),
    End(Op, Decimal, Box<Formula>, Decimal),
    Any(Op, Decimal, Box<Formula>),
    Again(Op, Decimal, Box<Formula>),
    RewardZero(Op, Decimal, Box<Formula>),
    RewardComma(Op, Decimal, Box<Formula>),
    RewardLimit(Op, Decimal, Box<Formula>),
    RewardEnd(Op, Decimal, Box<Formula>, Decimal),
}

/// A formula that is not at its end, where another is read within it: what it is part of, its part before the last `||`,
/// the part from there to the last `&&`, and the count of `!` after it.
#[derive(Drop)]
pub struct Pending {
    pub kind: Kind,
    pub either: Option<Box<Formula>>,
    pub both: Option<Box<Formula>>,
    pub bangs: u32,
}

/// Where the machine stands in a formula.
#[derive(Drop)]
pub enum Place {
    // An operand must come, after so many `!`.
    Before(u32),
    // An operand has come.
    After(Box<Formula>),
    // Within the fixed parts of a probability operator, before which stood so many `!`.
    Within(Phase, u32),
}

/// What encloses the place: how many more constructs may be nested in it, the formulas that are not at their end, and of
/// the innermost its part before the last `||` and the part from there to the last `&&`.
#[derive(Drop)]
pub struct Context {
    pub room: u32,
    pub outer: Vec<Pending>,
    pub either: Option<Box<Formula>>,
    pub both: Option<Box<Formula>>,
}

/// What was read, where a formula may go on.
#[derive(Drop)]
pub struct Machine {
    pub context: Context,
    pub place: Place,
}

impl Context {
    ghost use Rattle.std.specs.Prelude.{◌≡◌, suc, ◌<◌, IfOk, MatchOption};
    ghost use Rattle.csl_syntax.specs.View.{kind_of, IsContextWithin};

    /// The context of a formula that begins within the one at this place, which is of the kind, after so many `!`.
    pub fn with_another(self, kind: Kind, bangs: u32) -> Result<Context, AllocError>
        ensures { IfOk result (λ x. IsContextWithin self (kind_of kind) bangs x) }
    {
        let Context {
            room,
            mut outer,
            either,
            both,
        } = self;
        outer.push(Pending {
            kind,
            either,
            both,
            bangs,
        })?;
        Ok(Context {
            room,
            outer,
            either: None,
            both: None,
        })
    }

    /// The context with the room of one construct fewer, which begins; nothing where there is no room.
    pub fn narrowed(self) -> Option<Context>
        ensures { MatchOption result (self.room ≡ 0) (λ x. (self.room ≡ suc x.room) × (x ≡ record self { room = x.room })) }
    {
        let Context {
            room,
            outer,
            either,
            both,
        } = self;
        if room == 0 {
            return None;
        }
        Some(Context {
            room: room - 1,
            outer,
            either,
            both,
        })
    }

    /// The context with the room of one construct more, which is at its end.
    pub fn freed(self) -> Context
        requires { self.room < MOST_NESTED }
        ensures room { result.room ≡ suc self.room }
        ensures same { result ≡ record self { room = result.room } }
    {
        let Context {
            room,
            outer,
            either,
            both,
        } = self;
        Context {
            room: room + 1,
            outer,
            either,
            both,
        }
    }
}

impl Machine {
    ghost use Rattle.std.specs.Prelude.{◌≡◌, [], None};
    ghost use Rattle.csl_syntax.specs.Machine.{start, want};
    ghost use Rattle.csl_syntax.specs.View.{state_of, in_context, IsCounted, IsFilled};

    /// Before the first token.
    pub fn new(alloc: Global) -> Machine
        ensures state { state_of result ≡ start MOST_NESTED }
        ensures counted { IsCounted result }
    {
        Machine::before(Context {
            room: MOST_NESTED,
            outer: Vec::new(alloc),
            either: None,
            both: None,
        })
    }

    /// Where an operand must come, after no `!`.
    pub fn before(context: Context) -> Machine
        requires { IsFilled 0 context }
        ensures state { state_of result ≡ in_context context (λ d ls o a. want d ls o a 0) }
        ensures counted { IsCounted result }
    {
        Machine {
            context,
            place: Place::Before(0),
        }
    }
}
