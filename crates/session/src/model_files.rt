// The model that the files of a command stand for.
ghost use Rattle.std.specs.Prelude.{◌≡◌, ◌<◌, ◌≤◌, length, IfOk, IfSome, IsErrOf};
ghost use Rattle.command_words.specs.Command.{spoken_by};
ghost use Rattle.outside.specs.Causes.{HasCause};
ghost use Rattle.session.specs.Reading.{name_in, IsFileReading, IsTraReading, IsLabReading, IsRewReading, IsModelReading, AsksForFile, AsksForRew, AsksForModel};

use crate::reading::Stop;
use command_words::Command;
use lab_reader::read_lab;
use model_core::{Lab, Model, Rew, Tra};
use outside::{Files, TakeFault};
use report::{ModelFault, Which};
use rew_reader::read_rew;
use std::alloc::Global;
use text_lines::{FileFault, FileWhat, ReadFault};
use tra_reader::read_tra;

/// A model, or what is wrong with the first file that has a fault.
#[derive(Drop)]
pub(crate) enum ModelReading {
    Built(Model),
    Faulty(ModelFault),
}

// A file of more than 64 MiB is refused at no line.
const TOO_BIG: FileFault = FileFault {
    line: 0,
    what: FileWhat::TooBig,
};

// That the chain doesn't have the state that is to be watched is told at no line.
const NO_SUCH_STATE: FileFault = FileFault {
    line: 0,
    what: FileWhat::WatchState,
};

/// Takes and reads the files of the command, one after another, and builds the model.
pub(crate) fn read_model<F: Files>(
    alloc: Global,
    files: &mut F,
    command: &Command,
) -> Result<ModelReading, Stop>
    ensures model { IfOk result (IsModelReading (spoken_by command.now) (F.files files.old)) }
    ensures cause { HasCause (F.fault_count files.old) (F.fault_count files.new) (IsErrOf result Stop.Read) }
    ensures files { F.files files.new ≡ F.files files.old }
    ensures asked { IfSome (F.files files.old) (λ _. AsksForModel (spoken_by command.now) result (F.asked files.old)
        (F.asked files.new)) }
{
    let tra = match take_tra(alloc, files, &command.tra, command.options.state)? {
        Ok(tra) => tra,
        Err(fault) => return Ok(ModelReading::Faulty(ModelFault::of(Which::TraFile, fault))),
    };
    let lab = match take_lab(alloc, files, &command.lab, tra.n())? {
        Ok(lab) => lab,
        Err(fault) => return Ok(ModelReading::Faulty(ModelFault::of(Which::LabFile, fault))),
    };
    let rew = match take_rew(alloc, files, rew_name(command), tra.n())? {
        Ok(rew) => rew,
        Err(fault) => return Ok(ModelReading::Faulty(ModelFault::of(Which::RewFile, fault))),
    };
    let model = Model::build(alloc, tra, lab, rew)?;
    Ok(ModelReading::Built(model))
}

// The name of the file of rewards, if the command has one.
fn rew_name(command: &Command) -> Option<&str>
    ensures { name_in result ≡ (spoken_by command.now).rew }
{
    match &command.rew {
        Some(name) => Some(name.as_str()),
        None => None,
    }
}

// The chain of a file, where it has the state that is to be watched, or what is wrong with it.
fn take_tra<F: Files>(
    alloc: Global,
    files: &mut F,
    name: &str,
    state: u32,
) -> Result<Result<Tra, FileFault>, Stop>
    ensures tra { IfOk result (IsTraReading state name.now (F.files files.old)) }
    ensures cause { HasCause (F.fault_count files.old) (F.fault_count files.new) (IsErrOf result Stop.Read) }
    ensures files { F.files files.new ≡ F.files files.old }
    ensures asked { IfSome (F.files files.old) (λ _. AsksForFile name.now result (F.asked files.old) (F.asked files.new)) }
{
    let Some(bytes) = take_file(alloc, files, name)? else {
        return Ok(Err(TOO_BIG));
    };
    match read_tra(alloc, &bytes) {
        Ok(tra) if tra.n() <= state => Ok(Err(NO_SUCH_STATE)),
        Ok(tra) => Ok(Ok(tra)),
        Err(ReadFault::At(fault)) => Ok(Err(fault)),
        Err(ReadFault::Memory) => Err(Stop::Memory),
    }
}

// The labels of a file over n states, or what is wrong with it.
fn take_lab<F: Files>(
    alloc: Global,
    files: &mut F,
    name: &str,
    n: u32,
) -> Result<Result<Lab, FileFault>, Stop>
    requires some { 1 ≤ n }
    requires few { n ≤ 65536 }
    ensures lab { IfOk result (IsLabReading n name.now (F.files files.old)) }
    ensures cause { HasCause (F.fault_count files.old) (F.fault_count files.new) (IsErrOf result Stop.Read) }
    ensures files { F.files files.new ≡ F.files files.old }
    ensures asked { IfSome (F.files files.old) (λ _. AsksForFile name.now result (F.asked files.old) (F.asked files.new)) }
{
    let Some(bytes) = take_file(alloc, files, name)? else {
        return Ok(Err(TOO_BIG));
    };
    match read_lab(alloc, &bytes, n) {
        Ok(lab) => Ok(Ok(lab)),
        Err(ReadFault::At(fault)) => Ok(Err(fault)),
        Err(ReadFault::Memory) => Err(Stop::Memory),
    }
}

// The rewards of a file over n states, or what is wrong with it; none where there is no file.
fn take_rew<F: Files>(
    alloc: Global,
    files: &mut F,
    name: Option<&str>,
    n: u32,
) -> Result<Result<Option<Rew>, FileFault>, Stop>
    requires some { 1 ≤ n }
    requires few { n ≤ 65536 }
    ensures rew { IfOk result (IsRewReading n (name_in name.entry) (F.files files.old)) }
    ensures cause { HasCause (F.fault_count files.old) (F.fault_count files.new) (IsErrOf result Stop.Read) }
    ensures files { F.files files.new ≡ F.files files.old }
    ensures asked { IfSome (F.files files.old) (λ _. AsksForRew (name_in name.entry) result (F.asked files.old) (F.asked files.new)) }
{
    let Some(name) = name else {
        return Ok(Ok(None));
    };
    let Some(bytes) = take_file(alloc, files, name)? else {
        return Ok(Err(TOO_BIG));
    };
    match read_rew(alloc, &bytes, n) {
        Ok(rew) => Ok(Ok(Some(rew))),
        Err(ReadFault::At(fault)) => Ok(Err(fault)),
        Err(ReadFault::Memory) => Err(Stop::Memory),
    }
}

// The bytes of a file, or none where there are too many.
fn take_file<F: Files>(alloc: Global, files: &mut F, name: &str) -> Result<Option<Vec<u8>>, Stop>
    ensures bytes { IfOk result (IsFileReading name.now (F.files files.old)) }
    ensures cause { HasCause (F.fault_count files.old) (F.fault_count files.new) (IsErrOf result Stop.Read) }
    ensures files { F.files files.new ≡ F.files files.old }
    ensures asked { IfSome (F.files files.old) (λ _. AsksForFile name.now result (F.asked files.old) (F.asked files.new)) }
{
    match files.take(alloc, name) {
        Ok(bytes) => Ok(Some(bytes)),
        Err(TakeFault::TooBig) => Ok(None),
        Err(TakeFault::Failed) => Err(Stop::Read),
        Err(TakeFault::Memory) => Err(Stop::Memory),
    }
}
