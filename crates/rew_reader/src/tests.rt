ghost use Rattle.std.specs.Prelude.{◌≡◌, ◌≤◌, length, IfOk, IsSome};

use super::*;
use decimal_text::NumberFault;
use model_core::{Lab, Model, Rew, Tra};
use std::alloc::{AllocError, Global};
use std::process::Abort;
use std::test::Fail;
use text_lines::{FileFault, FileWhat, ReadFault};

// The model of n states with these rewards, without transitions and labels.
fn model_of(alloc: Global, rew: Rew, n: u32) -> Result<Model, AllocError>
    requires some { 1 ≤ n }
    requires few { n ≤ 65536 }
    requires states { length rew.rewards ≡ n }
    ensures states { IfOk result (λ model. model.n ≡ n) }
    ensures rewards { IfOk result (λ model. IsSome model.rewards) }
{
    let tra = Tra::new(n, 0, Vec::new(alloc));
    let marks = vec![in alloc; 0u64; n as usize]?;
    Model::build(alloc, tra, Lab::new(Vec::new(alloc), marks), Some(rew))
}

// Over as many states as there are rewards, the text is read as these, at this scale.
fn check_rewards(
    rt: &impl Abort,
    alloc: Global,
    text: &[u8],
    scale: u32,
    expected: &[u64],
) -> Result<(), Fail>
    requires some { 1 ≤ length expected.now }
    requires few { length expected.now ≤ 65536 }
{
    let n = expected.len() as u32;
    let rew = read_rew(alloc, text, n).ok().ok_or("refused")?;
    let model = model_of(alloc, rew, n)?;
    assert_eq!(rt; model.reward_scale(), scale, "{text:?}");
    for (s, reward) in expected.iter().enumerate() {
        assert_eq!(rt; model.reward(s as u32), *reward, "{text:?}");
    }
    Ok(())
}

// Over n states the text is refused for this, at this line.
fn check_fault(rt: &impl Abort, alloc: Global, text: &[u8], n: u32, line: u64, what: FileWhat) {
    let fault = ReadFault::At(FileFault { line, what });
    assert_eq!(rt; read_rew(alloc, text, n).err(), Some(fault), "{text:?}");
}

#[test]
fn rewards_are_taken_at_one_scale(rt: HostRuntime) -> Result<(), Fail> {
    let text = b"2 0.5\n4 3\n1 12.25\n5 1e-3\n6 0.00\n";
    let rewards = [12_250, 500, 0, 3_000, 1, 0];
    check_rewards(&rt, rt.alloc(), text, 3, &rewards)
}

#[test]
fn states_without_a_line_have_none(rt: HostRuntime) -> Result<(), Fail> {
    check_rewards(&rt, rt.alloc(), b"", 0, &[0, 0, 0])?;
    check_rewards(&rt, rt.alloc(), b"\n \t\r\n", 0, &[0])?;
    check_rewards(&rt, rt.alloc(), b"3 7", 0, &[0, 0, 7, 0])?;
    check_rewards(&rt, rt.alloc(), b"2 0.0", 0, &[0, 0])
}

#[test]
fn blank_lines_and_leading_zeros_are_passed_over(rt: HostRuntime) -> Result<(), Fail> {
    let text = b"\r\n \t\n\t002  2.5\r\n\n1\t1 \r\n\r\n3 10";
    check_rewards(&rt, rt.alloc(), text, 1, &[10, 25, 100])
}

#[test]
fn a_line_has_a_whole_number_and_one_more_word(rt: HostRuntime) {
    for text in [
        b"1 1\n\n1\n0 0\n".as_slice(),
        b"1 1\n\n2 2 2\n1 x\n",
        b"1 1\n\nx 2\n3 1e-19\n",
        b"1 1\n\n-2 x\n1 1\n",
        b"1 1\n\n2.0 1\n",
    ] {
        check_fault(&rt, rt.alloc(), text, 2, 3, FileWhat::Word);
    }
}

#[test]
fn states_are_numbered_from_1_to_n(rt: HostRuntime) {
    for text in [
        b"2 1\n0 x\n2 1\n".as_slice(),
        b"2 1\n3 1e18\nx\n",
        b"2 1\n99999999999999999999999 1\n2 1\n",
    ] {
        check_fault(&rt, rt.alloc(), text, 2, 2, FileWhat::StateRange);
    }
}

#[test]
fn rewards_are_numbers(rt: HostRuntime) {
    let faults = [
        (b"1 1\n1 -1\n2 1\n2 1\n".as_slice(), NumberFault::NotNumber),
        (b"1 1\n1 1e-19\nx\n", NumberFault::TooFine),
        (b"1 1\n1 1e18\n0 1\n", NumberFault::TooBig),
    ];
    for (text, fault) in faults {
        check_fault(&rt, rt.alloc(), text, 2, 2, FileWhat::Number(fault));
    }
}

#[test]
fn a_state_has_one_line(rt: HostRuntime) {
    for text in [
        b"2 1\n1 2\n002 1\n3 1\n".as_slice(),
        b"2 1\n1 9e17\n2 1e-18\nx\n",
    ] {
        check_fault(&rt, rt.alloc(), text, 2, 3, FileWhat::Repeated);
    }
}

#[test]
fn rewards_are_below_2_to_the_63_at_their_scale(rt: HostRuntime) -> Result<(), Fail> {
    let alloc = rt.alloc();
    let most = [9_223_372_036_854_775_800, 1];
    check_rewards(&rt, alloc, b"1 922337203685477580\n2 0.1\n", 1, &most)?;
    for (text, line) in [
        (b"1 922337203685477581\n2 0.1\n".as_slice(), 1),
        (b"2 0.1\n1 922337203685477581\n", 2),
        (b"2 1\n\n3 93e15\n1 9e17\n4 0.01\n", 3),
        (b"2 92e15\n\n3 93e15\n4 0.01\n", 3),
    ] {
        check_fault(&rt, alloc, text, 4, line, FileWhat::RewardScale);
    }
    check_fault(
        &rt,
        alloc,
        b"3 9e17\n1 0.01\n1 1\n",
        3,
        3,
        FileWhat::Repeated,
    );
    Ok(())
}
