// The lines of a watched state: what they may be, whatever the order of steps.
use super::*;

const UNTIL: &[u8] = b"P{>=0.63}[tt U[0,1] a]\nP{>0}[X a]\na\n";

const FRONT: &str = "formula P{>=0.63}[tt U[0,1] a]\nhorizon 32\nwatch 1 ";

const STATES: &str =
    " 0.632120558828 0.632120559760\n1 satisfied 0.632120558828 0.632120559760\n2 satisfied 1.000000000000 1.000000000000\nformula P{>0}[X a]\n1 satisfied 1.000000000000 1.000000000000\n2 refuted 0.000000000000 0.000000000000\nformula a\n1 refuted\n2 satisfied\n";

// The two numbers of a watch line.
fn bracket_of(line: &str) -> Option<(&str, &str)> {
    let mut words = line.split(' ');
    if words.next()? != "watch" {
        return None;
    }
    words.next()?;
    let low = words.next()?;
    let high = words.next()?;
    Some((low, high))
}

// How many watch lines there are, if each lies in the one before.
pub(super) fn nested_lines(text: &str) -> Option<u32> {
    let mut count = 0u32;
    let mut outer = ("0.000000000000", "1.000000000000");
    for line in text.split('\n') {
        if let Some(inner) = bracket_of(line) {
            if inner.0 < outer.0 || outer.1 < inner.1 {
                return None;
            }
            count = count.saturating_add(1);
            outer = inner;
        }
    }
    Some(count)
}

// Asserts that so many brackets of the first state are taken, and that the last is the printed one.
fn expect_watched(
    rt: &(impl Threads + Sync + AllocGlobal + Abort),
    words: &[&str],
    count: u32,
) -> Result<(), Fail> {
    let input = Input {
        words,
        ..Input::ctmc(STEP, LAB, UNTIL)
    };
    let (status, bytes) = serve_input(rt, input, 0)?;
    let text = str::from_utf8(&bytes)?;
    let end = format!(in rt.alloc(); "\nwatch {count}{STATES}")?;
    assert_eq!(rt; status, Status::Done);
    assert!(rt; text.starts_with(FRONT), "{text:?}");
    assert!(rt; text.ends_with(end.as_str()), "{text:?}");
    assert_eq!(rt; nested_lines(text), Some(count));
    Ok(())
}

#[test]
fn watched_brackets_are_nested_and_end_with_the_printed_one(rt: HostRuntime) -> Result<(), Fail> {
    expect_watched(&rt, &["mrmc_any", "--watch=2", "ctmc", "M.tra", "M.lab"], 2)?;
    expect_watched(
        &rt,
        &[
            "mrmc_any",
            "ctmc",
            "M.tra",
            "M.lab",
            "--workers=1",
            "--watch=5",
        ],
        5,
    )
}

// The most lines of watching that can be asked for.
#[test]
fn a_state_is_watched_1000_times_at_most(rt: HostRuntime) -> Result<(), Fail> {
    let words = &["mrmc_any", "ctmc", "M.tra", "M.lab", "--watch", "1000"];
    expect_watched(&rt, words, 1000)
}
