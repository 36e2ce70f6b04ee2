// Where a fixed part of a probability operator leads.
ghost use Rattle.std.specs.Prelude.{◌≡◌, ◌*◌, ◌^◌, ◌↔◌, nat_le, IsTrue};
ghost use Rattle.csl_syntax.specs.Tree.{tree_of};
ghost use Rattle.csl_syntax.specs.Machine.{p_brace, p_op, p_number, p_close, p_bracket, p_path, u_start, u_zero, u_comma};
ghost use Rattle.csl_syntax.specs.Machine.{u_limit, u_close, u_any, u_again, v_zero, v_comma, v_limit, v_close};
ghost use Rattle.csl_syntax.specs.View.{phase_of, Leads};

use crate::fault::FormulaWhat;
use crate::formula::{Bound, Formula, Op};
use crate::machine::{Kind, Phase};
use crate::token::Token;
use decimal_text::Decimal;

/// What comes of a token within the fixed parts of a probability operator.
#[derive(Drop)]
pub enum Lead {
    // Another fixed part.
    To(Phase),
    // A formula, which begins with the next token.
    Into(Kind),
    // A formula, which begins with this token.
    With(Kind),
    // Nothing: the token fails so.
    Nowhere(FormulaWhat),
}

pub fn lead_from(phase: Phase, token: Token) -> Lead
    ensures { Leads result (phase_of phase) token }
{
    match phase {
        Phase::Brace => brace(token),
        Phase::Compare => compare(token),
        Phase::Threshold(op) => threshold(op, token),
        Phase::Close(op, number) => close_brace(op, number, token),
        Phase::Bracket(op, number) => open_bracket(op, number, token),
        Phase::Path(op, number) => path(op, number, token),
        Phase::Start(op, number, left) => start(op, number, left, token),
        Phase::Zero(op, number, left) => zero(op, number, left, token),
        Phase::Comma(op, number, left) => comma(op, number, left, token),
        Phase::Limit(op, number, left) => limit(op, number, left, token),
        Phase::End(op, number, left, limit) => end(op, number, left, limit, token),
        Phase::Any(op, number, left) => any(op, number, left, token),
        Phase::Again(op, number, left) => again(op, number, left, token),
        Phase::RewardZero(op, number, left) => reward_zero(op, number, left, token),
        Phase::RewardComma(op, number, left) => reward_comma(op, number, left, token),
        Phase::RewardLimit(op, number, left) => reward_limit(op, number, left, token),
        Phase::RewardEnd(op, number, left, limit) => reward_end(op, number, left, limit, token),
    }
}

fn brace(token: Token) -> Lead
    ensures { Leads result p_brace token }
{
    match token {
        Token::OpenBrace => Lead::To(Phase::Compare),
        _ => Lead::Nowhere(FormulaWhat::Expected),
    }
}

fn compare(token: Token) -> Lead
    ensures { Leads result p_op token }
{
    match token {
        Token::Compare(op) => Lead::To(Phase::Threshold(op)),
        _ => Lead::Nowhere(FormulaWhat::Expected),
    }
}

fn threshold(op: Op, token: Token) -> Lead
    ensures { Leads result (p_number op) token }
{
    match token {
        Token::Number(number) => {
            if is_at_most_one(number) {
                Lead::To(Phase::Close(op, number))
            } else {
                Lead::Nowhere(FormulaWhat::Threshold)
            }
        }
        _ => Lead::Nowhere(FormulaWhat::Expected),
    }
}

fn is_at_most_one(number: Decimal) -> bool
    ensures { result ≡ nat_le number.c (1 * 10 ^ number.x) }
{
    number.c <= 10u64.pow(number.x)
}

fn is_zero(number: Decimal) -> bool
    ensures { IsTrue result ↔ (number.c ≡ 0) }
{
    number.c == 0
}

fn close_brace(op: Op, number: Decimal, token: Token) -> Lead
    ensures { Leads result (p_close op number) token }
{
    match token {
        Token::CloseBrace => Lead::To(Phase::Bracket(op, number)),
        _ => Lead::Nowhere(FormulaWhat::Expected),
    }
}

fn open_bracket(op: Op, number: Decimal, token: Token) -> Lead
    ensures { Leads result (p_bracket op number) token }
{
    match token {
        Token::OpenBracket => Lead::To(Phase::Path(op, number)),
        _ => Lead::Nowhere(FormulaWhat::Expected),
    }
}

fn path(op: Op, number: Decimal, token: Token) -> Lead
    ensures { Leads result (p_path op number) token }
{
    match token {
        Token::NextWord => Lead::Into(Kind::OfNext(op, number)),
        _ => Lead::With(Kind::UntilLeft(op, number)),
    }
}

fn start(op: Op, number: Decimal, left: Box<Formula>, token: Token) -> Lead
    ensures { Leads result (u_start op number (tree_of left.value)) token }
{
    match token {
        Token::OpenBracket => Lead::To(Phase::Zero(op, number, left)),
        _ => Lead::With(Kind::UntilRight(op, number, left, Bound::Unbounded)),
    }
}

fn zero(op: Op, number: Decimal, left: Box<Formula>, token: Token) -> Lead
    ensures { Leads result (u_zero op number (tree_of left.value)) token }
{
    match token {
        Token::Number(first) => {
            if is_zero(first) {
                Lead::To(Phase::Comma(op, number, left))
            } else {
                Lead::Nowhere(FormulaWhat::Expected)
            }
        }
        _ => Lead::Nowhere(FormulaWhat::Expected),
    }
}

fn comma(op: Op, number: Decimal, left: Box<Formula>, token: Token) -> Lead
    ensures { Leads result (u_comma op number (tree_of left.value)) token }
{
    match token {
        Token::Comma => Lead::To(Phase::Limit(op, number, left)),
        _ => Lead::Nowhere(FormulaWhat::Expected),
    }
}

fn limit(op: Op, number: Decimal, left: Box<Formula>, token: Token) -> Lead
    ensures { Leads result (u_limit op number (tree_of left.value)) token }
{
    match token {
        Token::Number(limit) => Lead::To(Phase::End(op, number, left, limit)),
        Token::Tilde => Lead::To(Phase::Any(op, number, left)),
        _ => Lead::Nowhere(FormulaWhat::Expected),
    }
}

fn end(op: Op, number: Decimal, left: Box<Formula>, limit: Decimal, token: Token) -> Lead
    ensures { Leads result (u_close op number (tree_of left.value) limit) token }
{
    match token {
        Token::CloseBracket => {
            Lead::Into(Kind::UntilRight(op, number, left, Bound::Time(limit)))
        }
        _ => Lead::Nowhere(FormulaWhat::Expected),
    }
}

fn any(op: Op, number: Decimal, left: Box<Formula>, token: Token) -> Lead
    ensures { Leads result (u_any op number (tree_of left.value)) token }
{
    match token {
        Token::CloseBracket => Lead::To(Phase::Again(op, number, left)),
        _ => Lead::Nowhere(FormulaWhat::Expected),
    }
}

fn again(op: Op, number: Decimal, left: Box<Formula>, token: Token) -> Lead
    ensures { Leads result (u_again op number (tree_of left.value)) token }
{
    match token {
        Token::OpenBracket => Lead::To(Phase::RewardZero(op, number, left)),
        _ => Lead::With(Kind::UntilRight(op, number, left, Bound::Unbounded)),
    }
}

fn reward_zero(op: Op, number: Decimal, left: Box<Formula>, token: Token) -> Lead
    ensures { Leads result (v_zero op number (tree_of left.value)) token }
{
    match token {
        Token::Number(first) => {
            if is_zero(first) {
                Lead::To(Phase::RewardComma(op, number, left))
            } else {
                Lead::Nowhere(FormulaWhat::Expected)
            }
        }
        _ => Lead::Nowhere(FormulaWhat::Expected),
    }
}

fn reward_comma(op: Op, number: Decimal, left: Box<Formula>, token: Token) -> Lead
    ensures { Leads result (v_comma op number (tree_of left.value)) token }
{
    match token {
        Token::Comma => Lead::To(Phase::RewardLimit(op, number, left)),
        _ => Lead::Nowhere(FormulaWhat::Expected),
    }
}

fn reward_limit(op: Op, number: Decimal, left: Box<Formula>, token: Token) -> Lead
    ensures { Leads result (v_limit op number (tree_of left.value)) token }
{
    match token {
        Token::Number(limit) => Lead::To(Phase::RewardEnd(op, number, left, limit)),
        _ => Lead::Nowhere(FormulaWhat::Expected),
    }
}

fn reward_end(op: Op, number: Decimal, left: Box<Formula>, limit: Decimal, token: Token) -> Lead
    ensures { Leads result (v_close op number (tree_of left.value) limit) token }
{
    match token {
        Token::CloseBracket => {
            Lead::Into(Kind::UntilRight(op, number, left, Bound::Reward(limit)))
        }
        _ => Lead::Nowhere(FormulaWhat::Expected),
    }
}
