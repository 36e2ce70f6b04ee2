// The text of a formula.
ghost use Rattle.std.specs.Prelude.{◌≡◌, ℕ, List, ◌++◌, ◌+◌, ◌<◌, ◌≤◌, length, IfOk, OnOk, codes};
ghost use Rattle.csl_syntax.specs.Tokens.{op_text};
ghost use Rattle.csl_syntax.specs.Tree.{tree_of, IsOver};
ghost use Rattle.csl_syntax.specs.CanonicalText.{is_disjunction, is_junction, guarded, bound_text, formula_text};
ghost use Rattle.decimal_text.specs.Text.{canonical_text};
ghost use Rattle.csl_syntax.specs.Laws.{TextReadsBack};
ghost use Rattle.csl_syntax.specs.Printer.{PieceIsOver, PendingIsOver, piece_text, piece_size, pending_text, pending_size, tree_size};

use crate::formula::{Bound, Formula, Op};
use decimal_text::Decimal;
use std::alloc::{AllocError, Global};
use text_lines::Name;

// A piece of the text that isn't written yet.
#[derive(Clone, Copy)]
enum Piece<'a> {
    Text(&'a [u8]),
    // `U` and its bound, between spaces.
    UntilWord(&'a Bound),
    Part(&'a Formula),
}

/// The formula's text over these labels.
///
/// Parentheses stand only where they are needed. The text has no limit of length, and a deep formula takes no more of the
/// stack than a small one. Only want of memory fails.
pub fn print(alloc: Global, formula: &Formula, labels: &[Name]) -> Result<Vec<u8>, AllocError>
    requires { IsOver (length labels.now) (tree_of formula.now) }
    ensures { IfOk result (λ text. text.items ≡ formula_text labels.now (tree_of formula.now)) }
{
    let mut text = Vec::new(alloc);
    let mut pending = Vec::new(alloc);
    pending.push(Piece::Part(formula))?;
    while let Some(piece) = pending.pop() {
        write(alloc, &mut text, &mut pending, piece, labels)?;
    }
    Ok(text)
}

// Writes a piece. Of a formula with operands it writes what stands before the first of them, and the rest is pending.
fn write<'a>(
    alloc: Global,
    text: &mut Vec<u8>,
    pending: &mut Vec<Piece<'a>>,
    piece: Piece<'a>,
    labels: &[Name],
) -> Result<(), AllocError>
    requires { PieceIsOver (length labels.now) piece }
    ensures text { OnOk result (text.new.items ++ pending_text labels.now pending.new.items
        ≡ text.old.items ++ (piece_text labels.now piece.entry ++ pending_text labels.now pending.old.items)) }
    ensures smaller { OnOk result (pending_size pending.new.items < pending_size pending.old.items + piece_size piece.entry) }
    ensures over { OnOk result (PendingIsOver (length labels.now) pending.old.items → PendingIsOver (length labels.now) pending.new.items) }
{
    match piece {
        Piece::Text(part) => text.extend_from_slice(part),
        Piece::UntilWord(bound) => write_until(alloc, text, *bound),
        Piece::Part(part) => begin(alloc, text, pending, part, labels),
    }
}

// Writes what stands before a formula's first operand, and puts off the rest.
fn begin<'a>(
    alloc: Global,
    text: &mut Vec<u8>,
    pending: &mut Vec<Piece<'a>>,
    formula: &'a Formula,
    labels: &[Name],
) -> Result<(), AllocError>
    requires { IsOver (length labels.now) (tree_of formula.now) }
    ensures text { OnOk result (text.new.items ++ pending_text labels.now pending.new.items
        ≡ text.old.items ++ (formula_text labels.now (tree_of formula.now) ++ pending_text labels.now pending.old.items)) }
    ensures smaller { OnOk result (pending_size pending.new.items < pending_size pending.old.items + tree_size (tree_of formula.now)) }
    ensures over { OnOk result (PendingIsOver (length labels.now) pending.old.items → PendingIsOver (length labels.now) pending.new.items) }
{
    match formula {
        Formula::Tt => text.extend_from_slice(b"tt")?,
        Formula::Ff => text.extend_from_slice(b"ff")?,
        Formula::Label(label) => text.extend_from_slice(labels[*label as usize].bytes())?,
        Formula::Not(operand) => {
            text.push(b'!')?;
            put_guarded(pending, is_junction(operand), operand)?;
        }
        Formula::And(left, right) => {
            put_guarded(pending, is_junction(right), right)?;
            put(pending, Piece::Text(b" && "))?;
            put_guarded(pending, is_disjunction(left), left)?;
        }
        Formula::Or(left, right) => {
            put_guarded(pending, is_disjunction(right), right)?;
            put(pending, Piece::Text(b" || "))?;
            put(pending, Piece::Part(left))?;
        }
        Formula::Next(op, threshold, operand) => {
            write_operator(alloc, text, *op, *threshold)?;
            text.extend_from_slice(b"X ")?;
            put(pending, Piece::Text(b"]"))?;
            put(pending, Piece::Part(operand))?;
        }
        Formula::Until(op, threshold, left, bound, right) => {
            write_operator(alloc, text, *op, *threshold)?;
            put(pending, Piece::Text(b"]"))?;
            put(pending, Piece::Part(right))?;
            put(pending, Piece::UntilWord(bound))?;
            put(pending, Piece::Part(left))?;
        }
    }
    Ok(())
}

// Puts off a formula, in parentheses where they are needed.
fn put_guarded<'a>(
    pending: &mut Vec<Piece<'a>>,
    needed: bool,
    part: &'a Formula,
) -> Result<(), AllocError>
    ensures text { OnOk result ((labels : List (List ℕ)) → pending_text labels pending.new.items
        ≡ guarded needed (formula_text labels (tree_of part.now)) ++ pending_text labels pending.old.items) }
    ensures size { OnOk result (pending_size pending.new.items ≤ pending_size pending.old.items + tree_size (tree_of part.now) + 2) }
    ensures over { OnOk result ((n : ℕ) → IsOver n (tree_of part.now)
        → PendingIsOver n pending.old.items → PendingIsOver n pending.new.items) }
{
    if needed {
        put(pending, Piece::Text(b")"))?;
        put(pending, Piece::Part(part))?;
        put(pending, Piece::Text(b"("))
    } else {
        put(pending, Piece::Part(part))
    }
}

// Puts off a piece: it is the next.
fn put<'a>(pending: &mut Vec<Piece<'a>>, piece: Piece<'a>) -> Result<(), AllocError>
    ensures text { OnOk result ((labels : List (List ℕ)) → pending_text labels pending.new.items
        ≡ piece_text labels piece.entry ++ pending_text labels pending.old.items) }
    ensures size { OnOk result (pending_size pending.new.items ≡ pending_size pending.old.items + piece_size piece.entry) }
    ensures over { OnOk result ((n : ℕ) → PieceIsOver n piece.entry
        → PendingIsOver n pending.old.items → PendingIsOver n pending.new.items) }
{
    pending.push(piece)?;
    Ok(())
}

// Writes a probability operator as far as its path.
fn write_operator(
    alloc: Global,
    text: &mut Vec<u8>,
    op: Op,
    threshold: Decimal,
) -> Result<(), AllocError>
    ensures { OnOk result (text.new.items ≡ text.old.items ++ (codes "P{" ++ op_text op ++ canonical_text threshold ++ codes "}[")) }
{
    text.extend_from_slice(b"P{")?;
    text.extend_from_slice(op.text())?;
    text.extend_from_slice(&decimal_text::print(alloc, threshold)?)?;
    text.extend_from_slice(b"}[")
}

// Writes `U` and its bound, between spaces.
fn write_until(alloc: Global, text: &mut Vec<u8>, bound: Bound) -> Result<(), AllocError>
    ensures { OnOk result (text.new.items ≡ text.old.items ++ (codes " " ++ bound_text bound ++ codes " ")) }
{
    let (before, limit, after): (&[u8], Option<Decimal>, &[u8]) = match bound {
        Bound::Unbounded => (b" U", None, b" "),
        Bound::Time(time) => (b" U[0,", Some(time), b"] "),
        Bound::Reward(reward) => (b" U[0,~][0,", Some(reward), b"] "),
    };
    text.extend_from_slice(before)?;
    if let Some(limit) = limit {
        text.extend_from_slice(&decimal_text::print(alloc, limit)?)?;
    }
    text.extend_from_slice(after)
}

// Whether the formula is a disjunction.
fn is_disjunction(formula: &Formula) -> bool
    ensures { result ≡ is_disjunction (tree_of formula.now) }
{
    matches!(formula, Formula::Or(..))
}

// Whether the formula is a conjunction or a disjunction.
fn is_junction(formula: &Formula) -> bool
    ensures { result ≡ is_junction (tree_of formula.now) }
{
    matches!(formula, Formula::And(..) | Formula::Or(..))
}

/// A formula for which a line stands is read back from its text, where that isn't too long for a line. The text stands for
/// no other formula, by `formula_is_one`.
pub fn text_reads_back()
    ensures { TextReadsBack }
{}
