// What is said of an answer that is lost.
use outside::FileFailure;
use std::fmt::Formatter;
use std::{fmt, io};

/// Why an answer was lost: what could not be read or written, with the system's reason where there is one, or that
/// memory ran out. It prints as one line, after the program's name, whatever a file's name holds.
#[derive(Clone, Copy, Debug)]
pub(crate) enum Lost<'a> {
    File(Option<&'a str>, Option<io::Error>),
    Input(Option<io::Error>),
    Output(Option<io::Error>),
    Memory,
}

impl<'a> Lost<'a> {
    /// A file could not be opened or read.
    pub(crate) fn of_file(failure: &'a FileFailure) -> Lost<'a> {
        Lost::File(failure.name(), failure.reason())
    }
}

impl fmt::Display for Lost<'_> {
    fn fmt<W: fmt::Write>(&self, f: &mut Formatter<W>) -> fmt::Result {
        f.write_str("mrmc_any: ")?;
        let reason = match self {
            Lost::File(Some(name), reason) => {
                write!(f, "cannot read the file {name:?}")?;
                reason
            }
            Lost::File(None, reason) => {
                f.write_str("cannot read a file")?;
                reason
            }
            Lost::Input(reason) => {
                f.write_str("cannot read standard input")?;
                reason
            }
            Lost::Output(reason) => {
                f.write_str("cannot write standard output")?;
                reason
            }
            Lost::Memory => return f.write_str("out of memory"),
        };
        match reason {
            Some(reason) => write!(f, ": {reason}"),
            None => Ok(()),
        }
    }
}

#[cfg(test)]
mod tests {
    use super::Lost;
    use std::io::{Error, ErrorKind};
    use std::test::Fail;

    #[test]
    fn each_loss_is_one_line(rt: HostRuntime) -> Result<(), Fail> {
        let closed = Error::from(ErrorKind::BrokenPipe);
        let cases = [
            (
                Lost::File(Some("a\nb "), Some(closed)),
                "mrmc_any: cannot read the file \"a\\nb \": broken pipe",
            ),
            (Lost::File(None, None), "mrmc_any: cannot read a file"),
            (Lost::Input(None), "mrmc_any: cannot read standard input"),
            (
                Lost::Output(Some(closed)),
                "mrmc_any: cannot write standard output: broken pipe",
            ),
            (Lost::Memory, "mrmc_any: out of memory"),
        ];
        for (lost, text) in cases {
            assert_eq!(rt; format!(in rt.alloc(); "{lost}")?.as_str(), text);
        }
        Ok(())
    }
}
