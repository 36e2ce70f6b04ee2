// Tokens that end a formula within another.
ghost use Rattle.std.specs.Prelude.{◌≡◌, ◌+◌, [], IfOk, MatchResult};
ghost use Rattle.csl_syntax.specs.Tree.{tree_of};
ghost use Rattle.csl_syntax.specs.Machine.{closed, boxed, turned};
ghost use Rattle.csl_syntax.specs.View.{outer_from, kind_of, nested, IsCounted, IsFilled, IsInnermost, Goes};
ghost use Rattle.csl_syntax.specs.declared.limits.TheConstants.{MOST_NESTED};

use crate::build::{next, until};
use crate::fault::FormulaWhat;
use crate::formula::Formula;
use crate::machine::{Context, Kind, Machine, Pending, Phase, Place};
use crate::steps::operand;
use crate::stop::Stop;
use std::alloc::Global;

// The innermost of the formulas that are not at their end, and the place in it.
#[derive(Drop)]
struct Innermost {
    kind: Kind,
    context: Context,
    bangs: u32,
}

// Opens the innermost of the formulas that are not at their end, with this room in it. Where there is none, no formula goes
// on so.
fn open_innermost(room: u32, outer: Vec<Pending>) -> Result<Innermost, Stop>
    requires { room + nested outer.items ≡ MOST_NESTED }
    ensures { MatchResult result
        (λ e. IsInnermost outer.items (kind_of e.kind) e.context e.bangs × (e.context.room ≡ room))
        (λ stop. (outer.items ≡ []) × (stop ≡ Stop.Fails FormulaWhat.Expected)) }
{
    let mut outer = outer;
    let Some(pending) = outer.pop() else {
        return Err(Stop::Fails(FormulaWhat::Expected));
    };
    let Pending {
        kind,
        either,
        both,
        bangs,
    } = pending;
    Ok(Innermost {
        kind,
        context: Context {
            room,
            outer,
            either,
            both,
        },
        bangs,
    })
}

/// `)` comes.
pub fn close_paren(
    alloc: Global,
    room: u32,
    outer: Vec<Pending>,
    formula: Box<Formula>,
) -> Result<Machine, Stop>
    requires { room + nested outer.items ≡ MOST_NESTED }
    ensures gives { Goes result (closed room (outer_from [] outer.items) (tree_of formula.value)) }
    ensures counted { IfOk result IsCounted }
{
    let Innermost {
        kind,
        context,
        bangs,
    } = open_innermost(room, outer)?;
    match kind {
        Kind::Parens => operand(alloc, context.freed(), bangs, formula),
        Kind::OfNext(..) | Kind::UntilLeft(..) | Kind::UntilRight(..) => {
            Err(Stop::Fails(FormulaWhat::Expected))
        }
    }
}

/// `]` comes.
pub fn close_bracket(
    alloc: Global,
    room: u32,
    outer: Vec<Pending>,
    formula: Box<Formula>,
) -> Result<Machine, Stop>
    requires { room + nested outer.items ≡ MOST_NESTED }
    ensures gives { Goes result (boxed room (outer_from [] outer.items) (tree_of formula.value)) }
    ensures counted { IfOk result IsCounted }
{
    let Innermost {
        kind,
        context,
        bangs,
    } = open_innermost(room, outer)?;
    match kind {
        Kind::OfNext(op, threshold) => {
            let whole = next(alloc, op, threshold, formula)?;
            operand(alloc, context.freed(), bangs, whole)
        }
        Kind::UntilRight(op, threshold, left, bound) => {
            let whole = until(alloc, op, threshold, left, bound, formula)?;
            operand(alloc, context.freed(), bangs, whole)
        }
        Kind::Parens | Kind::UntilLeft(..) => Err(Stop::Fails(FormulaWhat::Expected)),
    }
}

/// `U` comes.
pub fn until_word(room: u32, outer: Vec<Pending>, formula: Box<Formula>) -> Result<Machine, Stop>
    requires { room + nested outer.items ≡ MOST_NESTED }
    ensures gives { Goes result (turned room (outer_from [] outer.items) (tree_of formula.value)) }
    ensures counted { IfOk result IsCounted }
{
    let Innermost {
        kind,
        context,
        bangs,
    } = open_innermost(room, outer)?;
    match kind {
        Kind::UntilLeft(op, threshold) => Ok(Machine {
            context,
            place: Place::Within(Phase::Start(op, threshold, formula), bangs),
        }),
        Kind::Parens | Kind::OfNext(..) | Kind::UntilRight(..) => {
            Err(Stop::Fails(FormulaWhat::Expected))
        }
    }
}
