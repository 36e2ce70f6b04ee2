// One token.
ghost use Rattle.std.specs.Prelude.{◌≡◌, ℕ, ◌+◌, ◌∷◌, None, IfOk};
ghost use Rattle.csl_syntax.specs.Tree.{tree_of};
ghost use Rattle.csl_syntax.specs.Machine.{step, operand, bang, opened, headed, want, more, layer, in_want, in_have, in_more, begin};
ghost use Rattle.csl_syntax.specs.View.{in_context, state_of, kind_of, phase_of, IsFilled, IsCounted, Goes};

use crate::build::{boxed, joined, negated, with_both};
use crate::close::{close_bracket, close_paren, until_word};
use crate::fault::FormulaWhat;
use crate::formula::Formula;
use crate::lead::{Lead, lead_from};
use crate::machine::{Context, Kind, Machine, Phase, Place};
use crate::stop::Stop;
use crate::token::Token;
use std::alloc::Global;

/// The next token.
pub fn step(alloc: Global, labels: u32, machine: Machine, token: Token) -> Result<Machine, Stop>
    requires { IsCounted machine }
    ensures gives { Goes result (step labels 1 (state_of machine) token) }
    ensures counted { IfOk result IsCounted }
{
    let Machine { context, place } = machine;
    match place {
        Place::Before(bangs) => begun(alloc, labels, token, context, bangs),
        Place::After(formula) => after(alloc, token, context, formula),
        Place::Within(phase, bangs) => within(alloc, labels, phase, token, context, bangs),
    }
}

// A token where an operand must come.
fn begun(
    alloc: Global,
    labels: u32,
    token: Token,
    context: Context,
    bangs: u32,
) -> Result<Machine, Stop>
    requires { IsFilled bangs context }
    ensures gives { Goes result (in_context context (λ d ls o a. in_want labels 1 token d ls o a bangs)) }
    ensures counted { IfOk result IsCounted }
{
    match token {
        Token::Truth => leaf(alloc, context, bangs, Formula::Tt),
        Token::Falsehood => leaf(alloc, context, bangs, Formula::Ff),
        Token::Name(label) => {
            if label < labels {
                leaf(alloc, context, bangs, Formula::Label(label))
            } else {
                Err(Stop::Fails(FormulaWhat::UnknownLabel))
            }
        }
        Token::Bang => bang(context, bangs),
        Token::OpenParen => open(context, bangs),
        Token::ProbabilityWord => head(context, bangs),
        _ => Err(Stop::Fails(FormulaWhat::Expected)),
    }
}

// An operand of one token, after so many `!`.
fn leaf(alloc: Global, context: Context, bangs: u32, formula: Formula) -> Result<Machine, Stop>
    requires { IsFilled bangs context }
    ensures gives { Goes result (in_context context (λ d ls o a. operand d ls o a bangs (tree_of formula))) }
    ensures counted { IfOk result IsCounted }
{
    operand(alloc, context, bangs, boxed(alloc, formula)?)
}

/// A whole operand, after so many `!`.
pub fn operand(
    alloc: Global,
    context: Context,
    bangs: u32,
    formula: Box<Formula>,
) -> Result<Machine, Stop>
    requires { IsFilled bangs context }
    ensures gives { Goes result (in_context context (λ d ls o a. operand d ls o a bangs (tree_of formula.value))) }
    ensures counted { IfOk result IsCounted }
{
    let formula = negated(alloc, bangs, formula)?;
    let Context {
        room,
        outer,
        either,
        both,
    } = context;
    Ok(Machine {
        context: Context {
            room: room + bangs,
            outer,
            either,
            both,
        },
        place: Place::After(formula),
    })
}

fn bang(context: Context, bangs: u32) -> Result<Machine, Stop>
    requires { IsFilled bangs context }
    ensures gives { Goes result (in_context context (λ d ls o a. bang d ls o a bangs)) }
    ensures counted { IfOk result IsCounted }
{
    match context.narrowed() {
        None => Err(Stop::Fails(FormulaWhat::Depth)),
        Some(context) => Ok(Machine {
            context,
            place: Place::Before(bangs + 1),
        }),
    }
}

fn open(context: Context, bangs: u32) -> Result<Machine, Stop>
    requires { IsFilled bangs context }
    ensures gives { Goes result (in_context context (λ d ls o a. opened d ls o a bangs)) }
    ensures counted { IfOk result IsCounted }
{
    match context.narrowed() {
        None => Err(Stop::Fails(FormulaWhat::Depth)),
        Some(context) => inner(Kind::Parens, context, bangs),
    }
}

fn head(context: Context, bangs: u32) -> Result<Machine, Stop>
    requires { IsFilled bangs context }
    ensures gives { Goes result (in_context context (λ d ls o a. headed d ls o a bangs)) }
    ensures counted { IfOk result IsCounted }
{
    match context.narrowed() {
        None => Err(Stop::Fails(FormulaWhat::Depth)),
        Some(context) => Ok(further(Phase::Brace, context, bangs)),
    }
}

// A formula begins within another.
fn inner(kind: Kind, context: Context, bangs: u32) -> Result<Machine, Stop>
    requires { IsFilled (bangs + 1) context }
    ensures gives { Goes result (in_context context (λ d ls o a. want d (layer (kind_of kind) o a bangs ∷ ls) None None 0)) }
    ensures counted { IfOk result IsCounted }
{
    Ok(Machine::before(context.with_another(kind, bangs)?))
}

// A formula begins within another with this token.
fn inner_with(
    alloc: Global,
    labels: u32,
    kind: Kind,
    token: Token,
    context: Context,
    bangs: u32,
) -> Result<Machine, Stop>
    requires { IsFilled (bangs + 1) context }
    ensures gives { Goes result (in_context context (λ d ls o a. begin labels 1 (kind_of kind) token d ls o a bangs)) }
    ensures counted { IfOk result IsCounted }
{
    let context = context.with_another(kind, bangs)?;
    begun(alloc, labels, token, context, 0)
}

// A token within the fixed parts of a probability operator.
fn within(
    alloc: Global,
    labels: u32,
    phase: Phase,
    token: Token,
    context: Context,
    bangs: u32,
) -> Result<Machine, Stop>
    requires { IsFilled (bangs + 1) context }
    ensures gives { Goes result (in_context context (λ d ls o a. in_more labels 1 (phase_of phase) token d ls o a bangs)) }
    ensures counted { IfOk result IsCounted }
{
    // The token may begin a formula too.
    let first = token;
    match lead_from(phase, first) {
        Lead::To(next) => Ok(further(next, context, bangs)),
        Lead::Into(kind) => inner(kind, context, bangs),
        Lead::With(kind) => inner_with(alloc, labels, kind, token, context, bangs),
        Lead::Nowhere(what) => Err(Stop::Fails(what)),
    }
}

// Within the next of the fixed parts.
fn further(phase: Phase, context: Context, bangs: u32) -> Machine
    requires { IsFilled (bangs + 1) context }
    ensures gives { state_of result ≡ in_context context (λ d ls o a. more (phase_of phase) d ls o a bangs) }
    ensures counted { IsCounted result }
{
    Machine {
        context,
        place: Place::Within(phase, bangs),
    }
}

// A token after an operand.
fn after(
    alloc: Global,
    token: Token,
    context: Context,
    formula: Box<Formula>,
) -> Result<Machine, Stop>
    requires { IsFilled 0 context }
    ensures gives { (labels : ℕ) → Goes result (in_context context (λ d ls o a. in_have labels 1 token d ls o a (tree_of formula.value))) }
    ensures counted { IfOk result IsCounted }
{
    let Context {
        room,
        outer,
        either,
        both,
    } = context;
    match token {
        Token::AndAnd => {
            let both = Some(with_both(alloc, both, formula)?);
            Ok(Machine::before(Context {
                room,
                outer,
                either,
                both,
            }))
        }
        Token::OrOr => {
            let either = Some(joined(alloc, either, both, formula)?);
            Ok(Machine::before(Context {
                room,
                outer,
                either,
                both: None,
            }))
        }
        Token::CloseParen => {
            let formula = joined(alloc, either, both, formula)?;
            close_paren(alloc, room, outer, formula)
        }
        Token::CloseBracket => {
            let formula = joined(alloc, either, both, formula)?;
            close_bracket(alloc, room, outer, formula)
        }
        Token::UntilWord => {
            let formula = joined(alloc, either, both, formula)?;
            until_word(room, outer, formula)
        }
        _ => Err(Stop::Fails(FormulaWhat::Expected)),
    }
}
