// The texts of faults.
use super::*;
use step_core::PlanError;

fn check_text<R: Abort>(
    rt: &R,
    alloc: Global,
    fault: CheckFault,
    expected: &str,
) -> Result<(), Fail> {
    let text = format!(in alloc; "{fault}")?;
    assert_eq!(rt; text.as_str(), expected);
    Ok(())
}

#[test]
fn a_fault_says_what_is_wrong(rt: HostRuntime) -> Result<(), Fail> {
    let alloc = rt.alloc();
    let refused = "an until of the formula has no plan";
    check_text(&rt, alloc, CheckFault::Refused(PlanError::TooLong), refused)?;
    check_text(
        &rt,
        alloc,
        CheckFault::Refused(PlanError::TooLarge),
        refused,
    )?;
    let memory = "there is not enough memory to answer the formula";
    check_text(&rt, alloc, CheckFault::Memory, memory)
}

#[test]
fn a_plan_that_lacks_memory_is_no_refusal(rt: HostRuntime) -> Result<(), Fail> {
    assert_eq!(&rt; CheckFault::from(PlanError::Memory), CheckFault::Memory);
    assert_eq!(&rt;
        CheckFault::from(PlanError::TooLarge),
        CheckFault::Refused(PlanError::TooLarge)
    );
    Ok(())
}
