use super::*;
use std::alloc::{AllocError, Global};
use std::process::Abort;
use std::test::Fail;

// The text has the lines with these bytes, numbered from 1, and its end line is the next.
fn check_lines(rt: &impl Abort, text: &[u8], expected: &[&[u8]]) {
    let mut found = lines(text);
    for (i, bytes) in expected.iter().enumerate() {
        let line = Line {
            number: i as u64 + 1,
            bytes: *bytes,
        };
        assert_eq!(rt; found.next(), Some(line), "{text:?}");
    }
    assert_eq!(rt; found.next(), None, "{text:?}");
    assert_eq!(rt; end_line(text), expected.len() as u64 + 1, "{text:?}");
}

// The line has the words with these columns and bytes.
fn check_words(rt: &impl Abort, line: &[u8], expected: &[(u64, &[u8])]) {
    let mut found = words(line);
    for (column, bytes) in expected {
        let word = Word {
            column: *column,
            bytes: *bytes,
        };
        assert_eq!(rt; found.next(), Some(word), "{line:?}");
    }
    assert_eq!(rt; found.next(), None, "{line:?}");
}

#[test]
fn a_text_without_bytes_has_no_lines(rt: HostRuntime) {
    check_lines(&rt, b"", &[]);
}

#[test]
fn lf_and_cr_lf_end_lines(rt: HostRuntime) {
    check_lines(&rt, b"\n", &[b""]);
    check_lines(&rt, b"\r\n", &[b""]);
    check_lines(&rt, b"\n\r\n\n", &[b"", b"", b""]);
    check_lines(
        &rt,
        b"STATES 2\r\nTRANSITIONS 1\n",
        &[b"STATES 2", b"TRANSITIONS 1"],
    );
}

#[test]
fn any_other_cr_stays(rt: HostRuntime) {
    check_lines(&rt, b"\r", &[b"\r"]);
    check_lines(&rt, b"a\rb\n", &[b"a\rb"]);
    check_lines(&rt, b"a\n\rb\r", &[b"a", b"\rb\r"]);
    check_lines(&rt, b"a\r\r\nb", &[b"a\r", b"b"]);
}

#[test]
fn the_last_line_may_lack_its_end(rt: HostRuntime) {
    check_lines(&rt, b"a", &[b"a"]);
    check_lines(&rt, b"a\nb", &[b"a", b"b"]);
    check_lines(&rt, b"a\n\n b\t", &[b"a", b"", b" b\t"]);
    check_lines(&rt, b"a\nb\n", &[b"a", b"b"]);
}

#[test]
fn words_are_longest_runs_of_other_bytes(rt: HostRuntime) {
    check_words(&rt, b"", &[]);
    check_words(&rt, b" \t ", &[]);
    check_words(&rt, b"TRANSITIONS", &[(1, b"TRANSITIONS")]);
    check_words(&rt, b"1 2 0.5", &[(1, b"1"), (3, b"2"), (5, b"0.5")]);
    check_words(
        &rt,
        b" \t1\t\t22  3 \t",
        &[(3, b"1"), (6, b"22"), (10, b"3")],
    );
    check_words(&rt, b"a\r b\n \r", &[(1, b"a\r"), (4, b"b\n"), (7, b"\r")]);
}

#[test]
fn iterators_stay_at_their_end(rt: HostRuntime) {
    let mut found = lines(b"a");
    assert_eq!(rt; found.by_ref().count(), 1);
    assert_eq!(rt; found.next(), None);
    let mut found = words(b" a ");
    assert_eq!(rt; found.by_ref().count(), 1);
    assert_eq!(rt; found.next(), None);
}

#[test]
fn whole_numbers_are_digits_alone(rt: HostRuntime) {
    assert_eq!(rt; whole(b"0", 9), Some(0));
    assert_eq!(rt; whole(b"007", 9), Some(7));
    assert_eq!(rt;
        whole(b"0000000000000000000000000000000000000042", 99),
        Some(42)
    );
    for word in [
        b"".as_slice(),
        b"+1",
        b"-1",
        b"1.0",
        b"1e3",
        b"12a",
        b"a12",
        b" 1",
        b"1\r",
    ] {
        assert_eq!(rt; whole(word, 99), None, "{word:?}");
    }
}

#[test]
fn whole_numbers_past_the_limit_are_the_limit_plus_1(rt: HostRuntime) {
    assert_eq!(rt; whole(b"65536", 65_536), Some(65_536));
    assert_eq!(rt; whole(b"65537", 65_536), Some(65_537));
    assert_eq!(rt; whole(b"65538", 65_536), Some(65_537));
    assert_eq!(rt; whole(b"1", 0), Some(1));
    assert_eq!(rt;
        whole(b"9999999999999999999999999999999999999999", 0),
        Some(1)
    );
    let most = (1 << 63) - 1;
    assert_eq!(rt; whole(b"9223372036854775807", most), Some(most));
    assert_eq!(rt; whole(b"9223372036854775808", most), Some(most + 1));
    assert_eq!(rt; whole(b"18446744073709551616", most), Some(most + 1));
    assert_eq!(rt;
        whole(b"9999999999999999999999999999999999999999", most),
        Some(most + 1)
    );
    assert_eq!(rt;
        whole(b"999999999999999999999999999999999999999x", most),
        None
    );
}

#[test]
fn names_are_told_from_other_words(rt: HostRuntime) {
    for word in ["a", "_", "up", "Q9_z", "ttt", "p", "Pp", "quit_", "zZ0"] {
        assert!(rt; is_name(word.as_bytes()), "{word}");
    }
    for word in [
        "", "9", "9a", "a-b", "a b", "@", "[", "`", "{", "a/", "a:", "é", "aé", "tt", "ff", "P",
        "S", "X", "U", "quit",
    ] {
        assert!(rt; !is_name(word.as_bytes()), "{word}");
    }
}

fn up(alloc: Global) -> Result<Name, AllocError> {
    Ok(Name::new(b"up".to_vec(alloc)?))
}

#[test]
fn a_name_has_its_bytes(rt: HostRuntime) -> Result<(), Fail> {
    let name = up(rt.alloc())?;
    assert_eq!(rt; name.bytes(), b"up".as_slice());
    Ok(())
}

#[test]
fn want_of_memory_is_a_fault_of_its_own(rt: HostRuntime) {
    let fault = FileFault {
        line: 3,
        what: FileWhat::Number(decimal_text::NumberFault::TooFine),
    };
    assert_eq!(rt; ReadFault::from(AllocError), ReadFault::Memory);
    assert!(rt; ReadFault::At(fault) != ReadFault::Memory);
}
