// What a refused line says, put into a buffer.
ghost use Rattle.std.specs.Prelude.{◌≡◌, ◌++◌, OnOk};
ghost use Rattle.report.specs.RefusalText.{what_text, formula_fault_text, of_state, plan_refusal_text, refused_text};

use csl_syntax::{FormulaFault, FormulaWhat};
use itoa::Buffer;
use std::alloc::AllocError;
use step_core::PlanError;

/// Puts that the formula of the line of this number, from 1, is refused, and why. There is no line feed behind it. Only
/// want of memory fails; then some of it may stand in the buffer.
pub fn put_refused(text: &mut Vec<u8>, number: u64, why: &[u8]) -> Result<(), AllocError>
    ensures { OnOk result (text.new.items ≡ text.old.items ++ refused_text number why.now) }
{
    let mut digits = Buffer::new();
    text.extend_from_slice(b"refused line ")?;
    text.extend_from_slice(digits.format(number).as_bytes())?;
    text.push(b' ')?;
    text.extend_from_slice(why)?;
    Ok(())
}

/// Puts what is wrong with a formula: its column, from 1, and the fault by its name. Only want of memory fails; then some
/// of it may stand in the buffer.
pub fn put_formula_fault(text: &mut Vec<u8>, fault: FormulaFault) -> Result<(), AllocError>
    ensures { OnOk result (text.new.items ≡ text.old.items ++ formula_fault_text fault) }
{
    let mut digits = Buffer::new();
    text.extend_from_slice(b"column ")?;
    text.extend_from_slice(digits.format(fault.column).as_bytes())?;
    text.push(b' ')?;
    text.extend_from_slice(what_text(fault.what))?;
    Ok(())
}

/// Puts why an until has no plan: the reason by its name, and where a state is at fault its number, from 1 as in a file;
/// `PlanError` counts states from 0. Want of memory has a name too, though it refuses no line of the input. Only want of
/// memory fails; then some of the text may stand in the buffer.
pub fn put_plan_refusal(text: &mut Vec<u8>, refusal: PlanError) -> Result<(), AllocError>
    ensures { OnOk result (text.new.items ≡ text.old.items ++ plan_refusal_text refusal) }
{
    match refusal {
        PlanError::TooLong => text.extend_from_slice(b"TooLong"),
        PlanError::TooLarge => text.extend_from_slice(b"TooLarge"),
        PlanError::NoRewards => text.extend_from_slice(b"NoRewards"),
        PlanError::ZeroReward(state) => put_of_state(text, b"ZeroReward", state),
        PlanError::RewardRange(state) => put_of_state(text, b"RewardRange", state),
        PlanError::BoundRange => text.extend_from_slice(b"BoundRange"),
        PlanError::Memory => text.extend_from_slice(b"Memory"),
    }
}

// A name, and the number of a state, which a file counts from 1.
fn put_of_state(text: &mut Vec<u8>, name: &[u8], state: u32) -> Result<(), AllocError>
    ensures { OnOk result (text.new.items ≡ text.old.items ++ of_state name.now state) }
{
    let mut digits = Buffer::new();
    text.extend_from_slice(name)?;
    text.extend_from_slice(b" state ")?;
    text.extend_from_slice(digits.format(u64::from(state) + 1).as_bytes())?;
    Ok(())
}

fn what_text(what: FormulaWhat) -> &'static [u8]
    ensures { result.now ≡ what_text what }
{
    match what {
        FormulaWhat::Token => b"Token",
        FormulaWhat::Number => b"Number",
        FormulaWhat::Expected => b"Expected",
        FormulaWhat::UnknownLabel => b"UnknownLabel",
        FormulaWhat::Threshold => b"Threshold",
        FormulaWhat::Depth => b"Depth",
        FormulaWhat::Length => b"Length",
    }
}
