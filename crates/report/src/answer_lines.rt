// The lines of an answer, put into a buffer.
ghost use Rattle.std.specs.Prelude.{◌≡◌, ◌++◌, ◌∷◌, Some, OnOk, decimal};
ghost use Rattle.report.specs.AnswerText.{verdict_text, bracket_text, verdict_line, state_line, watch_line, formula_line, horizon_line, IsPrintable};

use crate::answer::{Printed, Verdict};
use decimal_text::write12;
use itoa::Buffer;
use std::alloc::AllocError;

pub(crate) fn put_formula_line(line: &mut Vec<u8>, formula: &[u8]) -> Result<(), AllocError>
    ensures { OnOk result (line.new.items ≡ line.old.items ++ formula_line formula.now) }
{
    line.extend_from_slice(b"formula ")?;
    line.extend_from_slice(formula)?;
    line.push(b'\n')?;
    Ok(())
}

pub(crate) fn put_horizon_line(line: &mut Vec<u8>, last: u32) -> Result<(), AllocError>
    ensures { OnOk result (line.new.items ≡ line.old.items ++ horizon_line (Some last)) }
{
    let mut digits = Buffer::new();
    line.extend_from_slice(b"horizon ")?;
    line.extend_from_slice(digits.format(last).as_bytes())?;
    line.push(b'\n')?;
    Ok(())
}

pub(crate) fn put_watch_line(
    line: &mut Vec<u8>,
    number: u64,
    bracket: &Printed,
) -> Result<(), AllocError>
    requires { IsPrintable bracket.now }
    ensures { OnOk result (line.new.items ≡ line.old.items ++ watch_line number bracket.now) }
{
    let mut digits = Buffer::new();
    line.extend_from_slice(b"watch ")?;
    line.extend_from_slice(digits.format(number).as_bytes())?;
    line.push(b' ')?;
    put_bracket(line, bracket)?;
    line.push(b'\n')?;
    Ok(())
}

// States are numbered from 1.
pub(crate) fn put_verdict_line(
    line: &mut Vec<u8>,
    number: u64,
    verdict: Verdict,
) -> Result<(), AllocError>
    ensures { OnOk result (line.new.items ≡ line.old.items ++ verdict_line number verdict) }
{
    put_verdict(line, number, verdict)?;
    line.push(b'\n')?;
    Ok(())
}

pub(crate) fn put_state_line(
    line: &mut Vec<u8>,
    number: u64,
    verdict: Verdict,
    bracket: &Printed,
) -> Result<(), AllocError>
    requires { IsPrintable bracket.now }
    ensures { OnOk result (line.new.items ≡ line.old.items ++ state_line number verdict bracket.now) }
{
    put_verdict(line, number, verdict)?;
    line.push(b' ')?;
    put_bracket(line, bracket)?;
    line.push(b'\n')?;
    Ok(())
}

fn put_verdict(line: &mut Vec<u8>, number: u64, verdict: Verdict) -> Result<(), AllocError>
    ensures { OnOk result (line.new.items ≡ line.old.items ++ (decimal number ++ 32 ∷ verdict_text verdict)) }
{
    let mut digits = Buffer::new();
    line.extend_from_slice(digits.format(number).as_bytes())?;
    line.push(b' ')?;
    line.extend_from_slice(verdict.text())?;
    Ok(())
}

fn put_bracket(line: &mut Vec<u8>, bracket: &Printed) -> Result<(), AllocError>
    requires { IsPrintable bracket.now }
    ensures { OnOk result (line.new.items ≡ line.old.items ++ bracket_text bracket.now) }
{
    line.extend_from_slice(&write12(bracket.low))?;
    line.push(b' ')?;
    line.extend_from_slice(&write12(bracket.high))?;
    Ok(())
}
