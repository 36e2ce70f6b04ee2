use super::read;
use crate::number_fault::NumberFault;
use crate::text::print;
use std::alloc::{AllocError, Global};
use std::process::Abort;
use std::test::Fail;

// The word is read as `c / 10^x`.
fn check_value(rt: &impl Abort, word: &[u8], c: u64, x: u32) {
    match read(word) {
        Ok(value) => assert_eq!(rt; (value.c, value.x), (c, x), "{word:?}"),
        Err(fault) => panic!(rt; "{word:?} is refused as {fault:?}"),
    }
}

fn check_fault(rt: &impl Abort, word: &[u8], fault: NumberFault) {
    assert_eq!(rt; read(word), Err(fault), "{word:?}");
}

// The front, a hundred thousand of one digit, and the back.
fn long_word(alloc: Global, front: &[u8], digit: u8, back: &[u8]) -> Result<Vec<u8>, AllocError> {
    let mut word = Vec::from_slice(alloc, front)?;
    word.extend_from_slice(&vec![in alloc; digit; 100_000]?)?;
    word.extend_from_slice(back)?;
    Ok(word)
}

#[test]
fn numbers_are_read_to_their_normal_form(rt: HostRuntime) {
    check_value(&rt, b"0.63", 63, 2);
    check_value(&rt, b"0.6321205590", 632_120_559, 9);
    check_value(&rt, b"1e-05", 1, 5);
    check_value(&rt, b"2.50E+3", 2_500, 0);
    check_value(&rt, b"0.000000", 0, 0);
    check_value(&rt, b"0.30000000000000004", 30_000_000_000_000_004, 17);
    check_value(&rt, b"999999999999999999", 999_999_999_999_999_999, 0);
    check_value(&rt, b"1e-18", 1, 18);
    check_value(&rt, b"0010", 10, 0);
    check_value(&rt, b"5.", 5, 0);
    check_value(&rt, b".5", 5, 1);
    check_value(&rt, b"12300e-4", 123, 2);
}

#[test]
fn what_is_no_short_number_is_refused(rt: HostRuntime) {
    check_fault(&rt, b"1e18", NumberFault::TooBig);
    check_fault(&rt, b"1e-19", NumberFault::TooFine);
    check_fault(&rt, b"1000000000000000001e-19", NumberFault::TooFine);
    check_fault(&rt, b"-1", NumberFault::NotNumber);
    check_fault(&rt, b"+1", NumberFault::NotNumber);
    check_fault(&rt, b"1e", NumberFault::NotNumber);
    check_fault(&rt, b"1e+", NumberFault::NotNumber);
    check_fault(&rt, b".", NumberFault::NotNumber);
    check_fault(&rt, b".e1", NumberFault::NotNumber);
    check_fault(&rt, b"1.2.3", NumberFault::NotNumber);
    check_fault(&rt, b"1e1.0", NumberFault::NotNumber);
    check_fault(&rt, b"nan", NumberFault::NotNumber);
    check_fault(&rt, b"", NumberFault::NotNumber);
}

#[test]
fn numbers_of_any_length_are_read(rt: HostRuntime) -> Result<(), Fail> {
    let alloc = rt.alloc();
    for (front, digit, back, (c, x)) in [
        (b"1".as_slice(), b'0', b"e-99999".as_slice(), (10, 0)),
        (b"12", b'0', b"e-100001", (12, 1)),
        (b"", b'0', b"63", (63, 0)),
        (b"7.", b'0', b"", (7, 0)),
        (b"0.", b'0', b"1e100001", (1, 0)),
        (b"0e", b'9', b"", (0, 0)),
        (b"0.0e-", b'9', b"", (0, 0)),
        (b"2e", b'0', b"3", (2_000, 0)),
    ] {
        check_value(&rt, &long_word(alloc, front, digit, back)?, c, x);
    }
    Ok(())
}

#[test]
fn words_of_any_length_are_refused(rt: HostRuntime) -> Result<(), Fail> {
    let alloc = rt.alloc();
    let too_fine = NumberFault::TooFine;
    for (front, digit, back, fault) in [
        (b"0.".as_slice(), b'0', b"1".as_slice(), too_fine),
        (b"0.", b'9', b"", too_fine),
        (b"", b'9', b"", NumberFault::TooBig),
        (b"", b'9', b"x", NumberFault::NotNumber),
        (b"1e-", b'9', b"", too_fine),
        (b"1e", b'9', b"", NumberFault::TooBig),
        (b"1e", b'9', b"-", NumberFault::NotNumber),
    ] {
        check_fault(&rt, &long_word(alloc, front, digit, back)?, fault);
    }
    Ok(())
}

#[test]
fn exponents_near_the_greatest_of_64_bits_are_read(rt: HostRuntime) {
    check_fault(&rt, b"1e18446744073709551615", NumberFault::TooBig);
    check_fault(&rt, b"1e18446744073709551617", NumberFault::TooBig);
    check_fault(&rt, b"1e-18446744073709551617", NumberFault::TooFine);
    check_fault(&rt, b"10e-18446744073709551616", NumberFault::TooFine);
}

#[test]
fn decimals_are_printed_and_read_back(rt: HostRuntime) -> Result<(), Fail> {
    let texts: [(&[u8], &[u8]); 6] = [
        (b"0e7", b"0"),
        (b"2.50E+3", b"2500"),
        (b"1e-18", b"0.000000000000000001"),
        (b"12.3400", b"12.34"),
        (b"999999999999999999", b"999999999999999999"),
        (b"0.999999999999999999", b"0.999999999999999999"),
    ];
    for (word, text) in texts {
        let value = read(word)?;
        let printed = print(rt.alloc(), value)?;
        assert_eq!(rt; printed.as_slice(), text);
        assert_eq!(rt; read(printed.as_slice()), Ok(value));
    }
    Ok(())
}
