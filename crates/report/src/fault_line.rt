// The line of a fault of a file.
ghost use Rattle.std.specs.Prelude.{◌≡◌, ◌++◌, OnOk, IsErrOf};
ghost use Rattle.std.specs.Io.KnownBytes.{Appends};
ghost use Rattle.outside.specs.Causes.{HasCause};
ghost use Rattle.outside.specs.Whole.{WritesFront};
ghost use Rattle.report.specs.FaultText.{which_text, what_text, model_fault_text};
ghost use Rattle.report.specs.RefusalText.{refusal_line};

use crate::model_fault::{ModelFault, Which};
use crate::refusal::write_refusal;
use decimal_text::NumberFault;
use itoa::Buffer;
use outside::{PutFault, Sink};
use std::alloc::{AllocError, Global};
use text_lines::FileWhat;

/// Writes the line of a fault of a file, as one piece: the file by its ending, the number of its line, from 1, or 0 where
/// the fault is the whole file's, and the fault by its name.
///
/// `Failed` comes only where a write failed in this call, and `Memory` where memory ran out: then a
/// front of the line is written.
pub fn write_fault<K: Sink>(alloc: Global, fault: ModelFault, out: &mut K) -> Result<(), PutFault>
    ensures ok { OnOk result (Appends (K.written out.old) (K.written out.new) (refusal_line (model_fault_text fault))) }
    ensures front { WritesFront (refusal_line (model_fault_text fault)) (K.written out.old) (K.written out.new) }
    ensures flushed { K.flushed out.new ≡ K.flushed out.old }
    ensures cause { HasCause (K.fault_count out.old) (K.fault_count out.new) (IsErrOf result PutFault.Failed) }
{
    let mut text = Vec::new(alloc);
    put_fault(&mut text, fault)?;
    write_refusal(alloc, &text, out)
}

fn put_fault(text: &mut Vec<u8>, fault: ModelFault) -> Result<(), AllocError>
    ensures { OnOk result (text.new.items ≡ text.old.items ++ model_fault_text fault) }
{
    let mut digits = Buffer::new();
    text.extend_from_slice(b"refused ")?;
    text.extend_from_slice(which_text(fault.file))?;
    text.extend_from_slice(b" line ")?;
    text.extend_from_slice(digits.format(fault.line).as_bytes())?;
    text.push(b' ')?;
    text.extend_from_slice(what_text(fault.what))?;
    Ok(())
}

fn which_text(file: Which) -> &'static [u8]
    ensures { result.now ≡ which_text file }
{
    match file {
        Which::TraFile => b"tra",
        Which::LabFile => b"lab",
        Which::RewFile => b"rew",
    }
}

fn what_text(what: FileWhat) -> &'static [u8]
    ensures { result.now ≡ what_text what }
{
    match what {
        FileWhat::Header => b"Header",
        FileWhat::StatesRange => b"StatesRange",
        FileWhat::TransitionsRange => b"TransitionsRange",
        FileWhat::Word => b"Word",
        FileWhat::StateRange => b"StateRange",
        FileWhat::Number(NumberFault::NotNumber) => b"Number NotNumber",
        FileWhat::Number(NumberFault::TooFine) => b"Number TooFine",
        FileWhat::Number(NumberFault::TooBig) => b"Number TooBig",
        FileWhat::Count => b"Count",
        FileWhat::Repeated => b"Repeated",
        FileWhat::RateRange => b"RateRange",
        FileWhat::Name => b"Name",
        FileWhat::RepeatedName => b"RepeatedName",
        FileWhat::Undeclared => b"Undeclared",
        FileWhat::LabelsRange => b"LabelsRange",
        FileWhat::RewardScale => b"RewardScale",
        FileWhat::TooBig => b"TooBig",
        FileWhat::WatchState => b"WatchState",
    }
}
