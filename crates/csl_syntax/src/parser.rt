// The whole line.
ghost use Rattle.std.specs.Prelude.{◌≡◌, ◌⊎◌, ◌+◌, ◌<◌, ◌≤◌, ◌^◌, [], length, slice_index, IsTrue, not, IfOk, MatchResult};
ghost use Rattle.csl_syntax.specs.Tree.{Tree, tree_of};
ghost use Rattle.csl_syntax.specs.FormulaText.{FormulaSays};
ghost use Rattle.csl_syntax.specs.FormulaFault.{FormulaFaultAt};
ghost use Rattle.csl_syntax.specs.Machine.{whole};
ghost use Rattle.csl_syntax.specs.View.{state_of, IsCounted};
ghost use Rattle.text_lines.specs.Words.{is_blank};
ghost use Rattle.csl_syntax.specs.Parsing.{IsReadUpTo, IsFaultOf, Advances, StopsAtHead, IsToldAs, EndsAs};

use crate::build::joined;
use crate::fault::{FormulaFault, FormulaWhat, ParseFault};
use crate::formula::Formula;
use crate::front::{first_token, skip_blanks};
use crate::limits::MOST_BYTES;
use crate::machine::{Context, Machine, Place};
use crate::steps::step;
use crate::stop::Stop;
use std::alloc::Global;
use text_lines::Name;

/// The formula for which the line stands over these labels, or the fault of the line and its column.
///
/// A label is named by its number in the list, from 0; where two labels have one name, it is the first. The parser doesn't
/// recur, whatever the line nests and however long its chains of operators are.
///
/// - `Length`: the line has more than 4,096 bytes; at column 4,097, and before all else.
///
/// The others are of the first token that has one of them, in this order, and at its column; or, where the line ends too
/// early, `Expected` behind its last byte.
///
/// - `Token`: no token begins here.
/// - `Number`: a run of digits and points, with an exponent if one follows, is no number, or none that a `Decimal` can be.
/// - `Expected`: no formula begins with the tokens up to this one.
/// - `UnknownLabel`: the name is none of the labels.
/// - `Threshold`: the threshold is greater than 1.
/// - `Depth`: a `!`, `(` or `P` that 64 negations, parentheses and probability operators enclose.
///
/// `Memory` is for want of memory alone.
pub fn parse(alloc: Global, line: &[u8], labels: &[Name]) -> Result<Formula, ParseFault>
    requires { length labels.now < 2 ^ 32 }
    ensures value { IfOk result (λ formula. FormulaSays line.now labels.now (tree_of formula)) }
    ensures fault { (at : FormulaFault) → result ≡ Err (ParseFault.At at) → FormulaFaultAt line.now labels.now at.column at.what }
    ensures says { (tree : Tree) → FormulaSays line.now labels.now tree
        → MatchResult result (λ formula. tree_of formula ≡ tree) (λ fault. fault ≡ ParseFault.Memory) }
    ensures faulty { (at : FormulaFault) → FormulaFaultAt line.now labels.now at.column at.what
        → (result ≡ Err (ParseFault.At at)) ⊎ (result ≡ Err ParseFault.Memory) }
{
    if line.len() > MOST_BYTES {
        return Err(ParseFault::At(FormulaFault {
            column: MOST_BYTES as u32 + 1,
            what: FormulaWhat::Length,
        }));
    }
    parse_short(alloc, line, labels)
}

// The formula of a line that isn't too long, or the line's fault.
fn parse_short(alloc: Global, line: &[u8], labels: &[Name]) -> Result<Formula, ParseFault>
    requires short { length line.now ≤ MOST_BYTES }
    requires labels { length labels.now < 2 ^ 32 }
    ensures { MatchResult result (λ formula. FormulaSays line.now labels.now (tree_of formula)) (IsFaultOf line.now labels.now) }
{
    let machine = read_tokens(alloc, line, labels)?;
    finish(alloc, machine, line)
}

// The machine at the end of the line.
fn read_tokens(alloc: Global, line: &[u8], labels: &[Name]) -> Result<Machine, ParseFault>
    requires short { length line.now ≤ MOST_BYTES }
    requires labels { length labels.now < 2 ^ 32 }
    ensures { MatchResult result (λ machine. IsReadUpTo line.now labels.now machine []) (IsFaultOf line.now labels.now) }
{
    let mut machine = Machine::new(alloc);
    let mut rest = skip_blanks(line);
    while !rest.is_empty() {
        match advance(alloc, machine, rest, labels) {
            Ok(advanced) => {
                let Advanced {
                    machine: next,
                    rest: more,
                } = advanced;
                machine = next;
                rest = skip_blanks(more);
            }
            Err(stop) => return Err(told(stop, line, rest)),
        }
    }
    Ok(machine)
}

// A machine, and what is left of the line.
#[derive(Drop)]
struct Advanced<'a> {
    machine: Machine,
    rest: &'a [u8],
}

// One token further.
fn advance<'a>(
    alloc: Global,
    machine: Machine,
    rest: &'a [u8],
    labels: &[Name],
) -> Result<Advanced<'a>, Stop>
    requires some { 0 < length rest.now }
    requires solid { IsTrue (not (is_blank (slice_index rest.now 0))) }
    requires labels { length labels.now < 2 ^ 32 }
    requires counted { IsCounted machine }
    ensures { MatchResult result
        (λ a. Advances labels.now machine rest.now a.machine a.rest.now)
        (StopsAtHead labels.now machine rest.now) }
{
    let front = match first_token(rest, labels) {
        Ok(front) => front,
        Err(what) => return Err(Stop::Fails(what)),
    };
    let machine = step(alloc, labels.len() as u32, machine, front.token)?;
    Ok(Advanced {
        machine,
        rest: front.rest,
    })
}

// The fault of the line where this is left of it.
fn told(stop: Stop, line: &[u8], rest: &[u8]) -> ParseFault
    requires short { length line.now ≤ MOST_BYTES }
    requires rest { length rest.now ≤ length line.now }
    ensures { IsToldAs stop (length line.now) (length rest.now) result }
{
    match stop {
        Stop::Fails(what) => ParseFault::At(FormulaFault {
            column: (line.len() - rest.len() + 1) as u32,
            what,
        }),
        Stop::Memory => ParseFault::Memory,
    }
}

// The formula, where the machine has a whole one at the end of the line.
fn finish(alloc: Global, machine: Machine, line: &[u8]) -> Result<Formula, ParseFault>
    requires { length line.now ≤ MOST_BYTES }
    ensures { EndsAs (length line.now) result (whole (state_of machine)) }
{
    let Machine { context, place } = machine;
    match place {
        Place::After(formula) => {
            let Context {
                room: _,
                outer,
                either,
                both,
            } = context;
            if outer.is_empty() {
                Ok(Box::into_inner(joined(alloc, either, both, formula)?))
            } else {
                Err(ends_early(line))
            }
        }
        Place::Before(_) => Err(ends_early(line)),
        Place::Within(_, _) => Err(ends_early(line)),
    }
}

// A formula must go on behind the last byte of the line.
fn ends_early(line: &[u8]) -> ParseFault
    requires { length line.now ≤ MOST_BYTES }
    ensures { result ≡ ParseFault.At (record { column = length line.now + 1; what = FormulaWhat.Expected }) }
{
    ParseFault::At(FormulaFault {
        column: line.len() as u32 + 1,
        what: FormulaWhat::Expected,
    })
}
