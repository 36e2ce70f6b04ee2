use super::read_words;
use crate::command::{Command, Kind, Options, WordsFault};
use std::alloc::{AllocError, Global};
use std::string::String;
use std::test::Fail;

// The numbers of the workers, bits, jumps and watched brackets, and the watched state from 0.
const DEFAULTS: [u32; 5] = [4, 30, 512, 0, 0];

fn options(numbers: [u32; 5]) -> Options {
    Options {
        workers: numbers[0],
        bits: numbers[1],
        jumps: numbers[2],
        watch: numbers[3],
        state: numbers[4],
        until_decided: false,
    }
}

// The same options with the flag.
fn with_flag(options: Options) -> Options {
    Options {
        until_decided: true,
        ..options
    }
}

// What words say whose first is the program's name.
fn read(alloc: Global, words: &[&str]) -> Result<Result<Command, WordsFault>, AllocError> {
    let mut texts = Vec::new(alloc);
    for word in words {
        texts.push(String::from_str(alloc, word)?)?;
    }
    Ok(read_words(alloc, &texts))
}

// Whether the words are refused as no command.
fn is_refused(alloc: Global, words: &[&str]) -> Result<bool, AllocError> {
    Ok(read(alloc, words)? == Err(WordsFault::Usage))
}

// Whether the words say `ctmc` and these names, with these options.
fn says_with(
    alloc: Global,
    words: &[&str],
    names: (&str, &str),
    options: Options,
) -> Result<bool, AllocError> {
    let command = Command {
        kind: Kind::Ctmc,
        tra: String::from_str(alloc, names.0)?,
        lab: String::from_str(alloc, names.1)?,
        rew: None,
        options,
    };
    Ok(read(alloc, words)? == Ok(command))
}

// Whether the words say `ctmc` and these names, with these numbers and without the flag.
fn says(
    alloc: Global,
    words: &[&str],
    names: (&str, &str),
    numbers: [u32; 5],
) -> Result<bool, AllocError> {
    says_with(alloc, words, names, options(numbers))
}

// These words after the names of two files.
fn with_files<'a>(alloc: Global, options: &[&'a str]) -> Result<Vec<&'a str>, AllocError> {
    let mut words = Vec::new(alloc);
    for word in ["mrmc_any", "ctmc", "a", "b"] {
        words.push(word)?;
    }
    for word in options {
        words.push(*word)?;
    }
    Ok(words)
}

// The command of a model with rewards.
fn with_rewards(alloc: Global, options: Options) -> Result<Command, AllocError> {
    Ok(Command {
        kind: Kind::Cmrm,
        tra: String::from_str(alloc, "a.tra")?,
        lab: String::from_str(alloc, "a.lab")?,
        rew: Some(String::from_str(alloc, "a.rew")?),
        options,
    })
}

#[test]
fn a_model_with_rewards_has_three_files(rt: HostRuntime) -> Result<(), Fail> {
    let alloc = rt.alloc();
    assert_eq!(rt;
        read(alloc, &["mrmc_any", "cmrm", "a.tra", "a.lab", "a.rew"])?,
        Ok(with_rewards(alloc, options(DEFAULTS))?)
    );
    assert_eq!(rt;
        read(
            alloc,
            &["", "cmrm", "a.tra", "a.lab", "--until-decided", "a.rew"]
        )?,
        Ok(with_rewards(alloc, with_flag(options(DEFAULTS)))?)
    );
    Ok(())
}

const NAMED: [(&[&str], (&str, &str)); 17] = [
    (&["mrmc_any", "ctmc", "a.tra", "a.lab"], ("a.tra", "a.lab")),
    (&["mrmc_any", "ctmc", "-", "-"], ("-", "-")),
    (&["mrmc_any", "ctmc", "", "b"], ("", "b")),
    (&["", "ctmc", "a", ""], ("a", "")),
    (&["--help", "ctmc", "a=1", "ctmc"], ("a=1", "ctmc")),
    (&["--", "ctmc", "4", "b--"], ("4", "b--")),
    (&["mrmc_any", "--", "ctmc", "a", "b"], ("a", "b")),
    (&["mrmc_any", "ctmc", "--", "a", "b"], ("a", "b")),
    (&["mrmc_any", "ctmc", "a", "--", "b"], ("a", "b")),
    (&["mrmc_any", "ctmc", "a", "b", "--"], ("a", "b")),
    (&["mrmc_any", "ctmc", "--", "--", "b"], ("--", "b")),
    (&["mrmc_any", "ctmc", "a", "--", "--"], ("a", "--")),
    (
        &["mrmc_any", "ctmc", "--", "--workers=5", "--bits"],
        ("--workers=5", "--bits"),
    ),
    (
        &["mrmc_any", "--", "ctmc", "--help", "-h"],
        ("--help", "-h"),
    ),
    (
        &["mrmc_any", "--workers=4", "--", "ctmc", "-x", ""],
        ("-x", ""),
    ),
    (&["--until-decided", "ctmc", "a", "b"], ("a", "b")),
    (
        &["mrmc_any", "ctmc", "a", "--", "--until-decided"],
        ("a", "--until-decided"),
    ),
];

#[test]
fn two_files_are_named(rt: HostRuntime) -> Result<(), Fail> {
    let alloc = rt.alloc();
    for (words, names) in NAMED {
        assert!(rt; says(alloc, words, names, DEFAULTS)?, "at {words:?}");
    }
    Ok(())
}

const NUMBERED: [(&str, &str, [u32; 5]); 16] = [
    ("--workers", "1", [1, 30, 512, 0, 0]),
    ("--workers", "64", [64, 30, 512, 0, 0]),
    ("--workers", "007", [7, 30, 512, 0, 0]),
    ("--bits", "8", [4, 8, 512, 0, 0]),
    ("--bits", "12", [4, 12, 512, 0, 0]),
    ("--bits", "48", [4, 48, 512, 0, 0]),
    ("--jumps", "1", [4, 30, 1, 0, 0]),
    ("--jumps", "16384", [4, 30, 16_384, 0, 0]),
    ("--watch", "0", DEFAULTS),
    ("--watch", "000", DEFAULTS),
    ("--watch", "1000", [4, 30, 512, 1_000, 0]),
    ("--state", "1", DEFAULTS),
    ("--state", "3", [4, 30, 512, 0, 2]),
    ("--state", "65536", [4, 30, 512, 0, 65_535]),
    (
        "--state",
        "000000000000000000000000000003",
        [4, 30, 512, 0, 2],
    ),
    ("--bits", "000000000000000000000000000030", DEFAULTS),
];

#[test]
fn an_option_has_its_number_in_both_spellings(rt: HostRuntime) -> Result<(), Fail> {
    let alloc = rt.alloc();
    for (option, value, numbers) in NUMBERED {
        let two_words = with_files(alloc, &[option, value])?;
        assert!(rt;
            says(alloc, &two_words, ("a", "b"), numbers)?,
            "at {option} {value}"
        );
        let assignment = format!(in alloc; "{option}={value}")?;
        let one_word = with_files(alloc, &[assignment.as_str()])?;
        assert!(rt;
            says(alloc, &one_word, ("a", "b"), numbers)?,
            "at {assignment}"
        );
    }
    Ok(())
}

const PLACED: [&[&str]; 5] = [
    &["mrmc_any", "--bits=9", "--state", "5", "ctmc", "a", "b"],
    &["mrmc_any", "ctmc", "--state=5", "a", "--bits", "9", "b"],
    &["mrmc_any", "ctmc", "a", "b", "--state=5", "--bits=9"],
    &["mrmc_any", "--state=5", "ctmc", "a", "--bits=9", "--", "b"],
    &[
        "mrmc_any", "--state", "5", "--bits", "9", "--", "ctmc", "a", "b",
    ],
];

#[test]
fn an_option_may_stand_anywhere_before_two_hyphens(rt: HostRuntime) -> Result<(), Fail> {
    let alloc = rt.alloc();
    for words in PLACED {
        assert!(rt;
            says(alloc, words, ("a", "b"), [4, 9, 512, 0, 4])?,
            "at {words:?}"
        );
    }
    Ok(())
}

#[test]
fn all_options_may_be_given(rt: HostRuntime) -> Result<(), Fail> {
    let alloc = rt.alloc();
    let words = with_files(
        alloc,
        &[
            "--state",
            "2",
            "--watch=3",
            "--jumps",
            "4",
            "--bits=9",
            "--workers",
            "6",
        ],
    )?;
    assert!(rt; says(alloc, &words, ("a", "b"), [6, 9, 4, 3, 1])?);
    Ok(())
}

const FLAGGED: [&[&str]; 7] = [
    &["mrmc_any", "--until-decided", "ctmc", "a", "b"],
    &["mrmc_any", "ctmc", "--until-decided", "a", "b"],
    &["mrmc_any", "ctmc", "a", "--until-decided", "b"],
    &["mrmc_any", "ctmc", "a", "b", "--until-decided"],
    &["mrmc_any", "--until-decided", "--", "ctmc", "a", "b"],
    &["mrmc_any", "ctmc", "a", "--until-decided", "--", "b"],
    &["mrmc_any", "ctmc", "a", "b", "--until-decided", "--"],
];

#[test]
fn the_flag_may_stand_anywhere_before_two_hyphens(rt: HostRuntime) -> Result<(), Fail> {
    let alloc = rt.alloc();
    let flagged = with_flag(options(DEFAULTS));
    for words in FLAGGED {
        assert!(rt;
            says_with(alloc, words, ("a", "b"), flagged)?,
            "at {words:?}"
        );
    }
    let name_behind = [
        "mrmc_any",
        "ctmc",
        "--until-decided",
        "a",
        "--",
        "--until-decided",
    ];
    assert!(rt; says_with(alloc, &name_behind, ("a", "--until-decided"), flagged)?);
    Ok(())
}

#[test]
fn the_flag_changes_no_option(rt: HostRuntime) -> Result<(), Fail> {
    let alloc = rt.alloc();
    for (option, value, numbers) in NUMBERED {
        let flagged = with_flag(options(numbers));
        let before = with_files(alloc, &["--until-decided", option, value])?;
        assert!(rt;
            says_with(alloc, &before, ("a", "b"), flagged)?,
            "at {before:?}"
        );
        let behind = with_files(alloc, &[option, value, "--until-decided"])?;
        assert!(rt;
            says_with(alloc, &behind, ("a", "b"), flagged)?,
            "at {behind:?}"
        );
    }
    Ok(())
}

const NO_WORD: &[&str] = &[];

const NO_MODEL: [&[&str]; 20] = [
    NO_WORD,
    &["mrmc_any"],
    &["ctmc", "a", "b"],
    &["mrmc_any", "ctmc"],
    &["mrmc_any", "ctmc", "a"],
    &["mrmc_any", "ctmc", "a", "b", "c"],
    &["mrmc_any", "ctmc", "a", "b", ""],
    &["mrmc_any", "ctmc", "a", "b", "--", "--"],
    &["mrmc_any", "cmrm", "a", "b"],
    &["mrmc_any", "cmrm", "a", "b", "c", "d"],
    &["mrmc_any", "dtmc", "a", "b"],
    &["mrmc_any", "CTMC", "a", "b"],
    &["mrmc_any", "ctmc ", "a", "b"],
    &["mrmc_any", "", "a", "b"],
    &["mrmc_any", "a", "ctmc", "b"],
    &["mrmc_any", "--", "--workers=4", "ctmc", "a", "b"],
    &["mrmc_any", "--until-decided"],
    &["mrmc_any", "ctmc", "a", "--until-decided"],
    &["mrmc_any", "--", "--until-decided", "ctmc", "a", "b"],
    &["mrmc_any", "ctmc", "a", "b", "--", "--until-decided"],
];

#[test]
fn words_that_are_no_model_are_refused(rt: HostRuntime) -> Result<(), Fail> {
    let alloc = rt.alloc();
    for words in NO_MODEL {
        assert!(rt; is_refused(alloc, words)?, "at {words:?}");
    }
    Ok(())
}

const NO_OPTIONS: [&str; 34] = [
    "--help",
    "-h",
    "--version",
    "-V",
    "--work",
    "--work=4",
    "--workers4",
    "--workersx=4",
    "--Workers=4",
    "-workers=4",
    "---workers=4",
    "--=4",
    "-=",
    "---",
    "-a",
    "-4",
    "--workers:4",
    "--workers =4",
    "--help=4",
    "--tra=a",
    "--model=a",
    "--u",
    "--until",
    "--until-",
    "--until-decide",
    "--until-decided-",
    "--until_decided",
    "--Until-decided",
    "-until-decided",
    "---until-decided",
    "--until-decided ",
    "--until-decided=",
    "--until-decided=x",
    "--until-decided=true",
];

#[test]
fn other_words_that_begin_with_a_hyphen_are_refused(rt: HostRuntime) -> Result<(), Fail> {
    let alloc = rt.alloc();
    for word in NO_OPTIONS {
        let alone = with_files(alloc, &[word])?;
        assert!(rt; is_refused(alloc, &alone)?, "at {word}");
        let before_a_number = with_files(alloc, &[word, "4"])?;
        assert!(rt; is_refused(alloc, &before_a_number)?, "at {word} 4");
    }
    Ok(())
}

const NO_VALUES: [(&str, &str); 28] = [
    ("--workers", "0"),
    ("--workers", "65"),
    ("--bits", "7"),
    ("--bits", "49"),
    ("--jumps", "0"),
    ("--jumps", "16385"),
    ("--watch", "1001"),
    ("--state", "0"),
    ("--state", "65537"),
    ("--watch", "-0"),
    ("--workers", "-4"),
    ("--workers", "-"),
    ("--workers", "--"),
    ("--workers", "--bits"),
    ("--workers", ""),
    ("--workers", "+4"),
    ("--workers", "4.0"),
    ("--workers", "4e0"),
    ("--workers", " 4"),
    ("--workers", "0x4"),
    ("--bits", "=9"),
    ("--workers", "4=4"),
    ("--workers", "٤"),
    ("--workers", "4294967300"),
    ("--workers", "18446744073709551620"),
    ("--watch", "340282366920938463463374607431768211456"),
    ("--watch", "999999999999999999999999999999"),
    ("--watch", "000000000000000000000000001001"),
];

#[test]
fn a_value_that_is_no_number_in_range_is_refused(rt: HostRuntime) -> Result<(), Fail> {
    let alloc = rt.alloc();
    for (option, value) in NO_VALUES {
        let two_words = with_files(alloc, &[option, value])?;
        assert!(rt; is_refused(alloc, &two_words)?, "at {option} {value}");
        let assignment = format!(in alloc; "{option}={value}")?;
        let one_word = with_files(alloc, &[assignment.as_str()])?;
        assert!(rt; is_refused(alloc, &one_word)?, "at {assignment}");
    }
    Ok(())
}

const NOT_GIVEN_ONCE: [&[&str]; 12] = [
    &["--workers"],
    &["--state"],
    &["--workers=4", "--bits"],
    &["--workers", "--bits", "8"],
    &["--workers", "--bits=8", "4"],
    &["--workers", "--", "4"],
    &["--workers="],
    &["--workers=", "4"],
    &["--workers=4", "--workers=4"],
    &["--workers", "4", "--workers", "4"],
    &["--workers=4", "--bits=8", "--workers", "5"],
    &["--state", "1", "--state=1", "--"],
];

#[test]
fn an_option_without_a_value_or_given_twice_is_refused(rt: HostRuntime) -> Result<(), Fail> {
    let alloc = rt.alloc();
    for options in NOT_GIVEN_ONCE {
        let words = with_files(alloc, options)?;
        assert!(rt; is_refused(alloc, &words)?, "at {options:?}");
    }
    Ok(())
}

const FLAG_NOT_ALONE: [&[&str]; 11] = [
    &["--until-decided", "--until-decided"],
    &["--until-decided", "--until-decided", "--"],
    &["--until-decided", "--bits=8", "--until-decided"],
    &["--until-decided", "--until-decided", "--until-decided"],
    &["--until-decided", "--until-decided=x"],
    &["--until-decided", "x"],
    &["--until-decided", "=x"],
    &["--bits", "--until-decided"],
    &["--bits", "--until-decided", "8"],
    &["--bits=--until-decided"],
    &["--until-decided", "--bits"],
];

#[test]
fn the_flag_with_a_value_or_given_twice_is_refused(rt: HostRuntime) -> Result<(), Fail> {
    let alloc = rt.alloc();
    for options in FLAG_NOT_ALONE {
        let words = with_files(alloc, options)?;
        assert!(rt; is_refused(alloc, &words)?, "at {options:?}");
    }
    Ok(())
}
