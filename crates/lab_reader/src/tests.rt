ghost use Rattle.std.specs.Prelude.{◌≤◌, ◌<◌, ◌≡◌};

use super::*;
use model_core::{Model, Tra};
use std::alloc::{AllocError, Global};
use std::process::Abort;
use std::test::Fail;
use text_lines::{FileFault, FileWhat, ReadFault};

// A chain of n states without transitions.
fn quiet_chain(alloc: Global, n: u32) -> Tra
    requires some { 1 ≤ n }
    requires few { n ≤ 65536 }
    ensures { result.n ≡ n }
{
    Tra::new(n, 0, Vec::new(alloc))
}

// This chain with the labels that the text gives.
fn read_model(alloc: Global, text: &[u8], n: u32) -> Result<Model, ReadFault>
    requires some { 1 ≤ n }
    requires few { n ≤ 65536 }
{
    let lab = read_lab(alloc, text, n)?;
    Ok(Model::build(alloc, quiet_chain(alloc, n), lab, None)?)
}

// The names of the labels, each with a space after it.
fn names_of(alloc: Global, model: &Model) -> Result<Vec<u8>, AllocError> {
    let mut names = Vec::new(alloc);
    for name in model.labels() {
        names.extend_from_slice(name.bytes())?;
        names.push(b' ')?;
    }
    Ok(names)
}

// The marks of a state.
fn mark_of(model: &Model, s: u32) -> u64
    requires { s < model.now.n }
{
    let mut mark = 0;
    for label in 0..model.labels().len() as u32 {
        if model.has(s, label) {
            mark |= 1 << label;
        }
    }
    mark
}

// The marks of all states.
fn marks_of(alloc: Global, model: &Model) -> Result<Vec<u64>, AllocError> {
    let mut marks = Vec::new(alloc);
    for s in 0..model.n() {
        marks.push(mark_of(model, s))?;
    }
    Ok(marks)
}

// The text gives three states these labels.
fn check_labels(
    rt: &impl Abort,
    alloc: Global,
    text: &[u8],
    names: &[u8],
    marks: &[u64],
) -> Result<(), Fail> {
    let model = read_model(alloc, text, 3)?;
    assert_eq!(rt; names_of(alloc, &model)?.as_slice(), names);
    assert_eq!(rt; marks_of(alloc, &model)?.as_slice(), marks);
    Ok(())
}

// The text, over three states, has this fault at this line.
fn check_fault(rt: &impl Abort, alloc: Global, text: &[u8], line: u64, what: FileWhat) {
    let fault = FileFault { line, what };
    assert_eq!(rt; read_lab(alloc, text, 3).err(), Some(ReadFault::At(fault)));
}

#[test]
fn labels_are_read(rt: HostRuntime) -> Result<(), Fail> {
    let text = b"#DECLARATION\nup down\n_9\n#END\n1 down up\n3 _9\n";
    check_labels(&rt, rt.alloc(), text, b"up down _9 ", &[0b011, 0, 0b100])
}

#[test]
fn a_state_has_the_labels_of_all_its_lines(rt: HostRuntime) -> Result<(), Fail> {
    let text = b"#DECLARATION\na b c\n#END\n2 c\n1\n2 a a\n02 c\n";
    check_labels(&rt, rt.alloc(), text, b"a b c ", &[0, 0b101, 0])
}

#[test]
fn lines_may_be_blank_and_end_in_other_ways(rt: HostRuntime) -> Result<(), Fail> {
    let text = b"\r\n#DECLARATION\r\n \t\r\n\ta  b \r\n\r\n #END\t\n\n  3\tb";
    check_labels(&rt, rt.alloc(), text, b"a b ", &[0, 0, 0b10])
}

#[test]
fn there_may_be_no_labels(rt: HostRuntime) -> Result<(), Fail> {
    check_labels(&rt, rt.alloc(), b"#DECLARATION\n#END\n1\n", b"", &[0, 0, 0])
}

#[test]
fn the_opening_line_stands_first(rt: HostRuntime) {
    let alloc = rt.alloc();
    check_fault(&rt, alloc, b"", 1, FileWhat::Header);
    check_fault(&rt, alloc, b"\n \n", 3, FileWhat::Header);
    check_fault(&rt, alloc, b"#DECLARATIONS\n1x\n", 1, FileWhat::Header);
    check_fault(&rt, alloc, b"\n#DECLARATION a\n1x\n", 2, FileWhat::Header);
    check_fault(&rt, alloc, b"#END\nx\n", 1, FileWhat::Header);
}

#[test]
fn the_closing_line_stands_alone(rt: HostRuntime) {
    let alloc = rt.alloc();
    check_fault(&rt, alloc, b"#DECLARATION\n", 2, FileWhat::Header);
    check_fault(&rt, alloc, b"#DECLARATION\na\nb", 4, FileWhat::Header);
    check_fault(&rt, alloc, b"#DECLARATION\n#END a\nx\n", 2, FileWhat::Name);
    check_fault(&rt, alloc, b"#DECLARATION\na #END\nx\n", 2, FileWhat::Name);
}

#[test]
fn words_that_are_declared_are_names(rt: HostRuntime) {
    let alloc = rt.alloc();
    check_fault(&rt, alloc, b"#DECLARATION\na 1x a\na\n", 2, FileWhat::Name);
    check_fault(&rt, alloc, b"#DECLARATION\na\n\ntt a\n", 4, FileWhat::Name);
    check_fault(
        &rt,
        alloc,
        b"#DECLARATION\n#DECLARATION\n",
        2,
        FileWhat::Name,
    );
}

#[test]
fn names_are_declared_once(rt: HostRuntime) {
    let alloc = rt.alloc();
    check_fault(
        &rt,
        alloc,
        b"#DECLARATION\na b a 9\n9\n",
        2,
        FileWhat::RepeatedName,
    );
    check_fault(
        &rt,
        alloc,
        b"#DECLARATION\na\nb a\n9\n",
        3,
        FileWhat::RepeatedName,
    );
}

// The opening line and 64 names.
const FULL: &[u8] =
    b"#DECLARATION\na0 a1 a2 a3 a4 a5 a6 a7 a8 a9 a10 a11 a12 a13 a14 a15\na16 a17 a18 a19 a20 a21 a22 a23 a24 a25 a26 a27 a28 a29 a30 a31\na32 a33 a34 a35 a36 a37 a38 a39 a40 a41 a42 a43 a44 a45 a46 a47\na48 a49 a50 a51 a52 a53 a54 a55 a56 a57 a58 a59 a60 a61 a62 a63\n";

// This text, and then these bytes.
fn full_then(alloc: Global, bytes: &[u8]) -> Result<Vec<u8>, AllocError> {
    let mut text = FULL.to_vec(alloc)?;
    text.extend_from_slice(bytes)?;
    Ok(text)
}

#[test]
fn there_may_be_64_labels(rt: HostRuntime) -> Result<(), Fail> {
    let text = full_then(rt.alloc(), b"#END\n3 a63\n1 a0 a63\n")?;
    let model = read_model(rt.alloc(), &text, 3)?;
    assert_eq!(rt; model.labels().len(), 64);
    assert_eq!(rt;
        marks_of(rt.alloc(), &model)?.as_slice(),
        [1 + (1 << 63), 0, 1 << 63].as_slice()
    );
    Ok(())
}

#[test]
fn there_may_be_no_more_labels(rt: HostRuntime) -> Result<(), Fail> {
    let alloc = rt.alloc();
    let text = full_then(alloc, b"b 9\n9\n")?;
    check_fault(&rt, alloc, &text, 6, FileWhat::LabelsRange);
    let text = full_then(alloc, b"a0 9\n9\n")?;
    check_fault(&rt, alloc, &text, 6, FileWhat::RepeatedName);
    let text = full_then(alloc, b"9 b\n9\n")?;
    check_fault(&rt, alloc, &text, 6, FileWhat::Name);
    Ok(())
}

#[test]
fn a_line_begins_with_a_whole_number(rt: HostRuntime) {
    let alloc = rt.alloc();
    check_fault(
        &rt,
        alloc,
        b"#DECLARATION\na\n#END\n1\na b\n0\n",
        5,
        FileWhat::Word,
    );
    check_fault(
        &rt,
        alloc,
        b"#DECLARATION\na\n#END\n-1 a\n0\n",
        4,
        FileWhat::Word,
    );
    check_fault(
        &rt,
        alloc,
        b"#DECLARATION\na\n#END\n#END\n0\n",
        4,
        FileWhat::Word,
    );
}

#[test]
fn the_number_is_that_of_a_state(rt: HostRuntime) {
    let alloc = rt.alloc();
    check_fault(
        &rt,
        alloc,
        b"#DECLARATION\na\n#END\n0 b\nx\n",
        4,
        FileWhat::StateRange,
    );
    check_fault(
        &rt,
        alloc,
        b"#DECLARATION\na\n#END\n3 a\n4 b\nx\n",
        5,
        FileWhat::StateRange,
    );
    check_fault(
        &rt,
        alloc,
        b"#DECLARATION\n#END\n18446744073709551617\n",
        3,
        FileWhat::StateRange,
    );
}

#[test]
fn labels_are_declared(rt: HostRuntime) {
    let alloc = rt.alloc();
    check_fault(
        &rt,
        alloc,
        b"#DECLARATION\na b\n#END\n1 b\n2 a c b\n4\n",
        5,
        FileWhat::Undeclared,
    );
    check_fault(
        &rt,
        alloc,
        b"#DECLARATION\naa\n#END\n1 a\nx\n",
        4,
        FileWhat::Undeclared,
    );
}
