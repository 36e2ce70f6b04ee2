// What is read before anything is answered: the words, the files that they name, and the formulas.
ghost use Rattle.std.specs.Prelude.{◌≡◌, Some, map, string_bytes, IfOk, IfSome, IsErr, IsErrOf};
ghost use Rattle.command_words.specs.Command.{spoken_by};
ghost use Rattle.command_words.specs.Laws.{AreInRange};
ghost use Rattle.command_words.specs.Words.{AreCommand};
ghost use Rattle.outside.specs.Causes.{HasCause};
ghost use Rattle.session.specs.Command.{Say};
ghost use Rattle.session.specs.ReadCause.{HasReadCause, IsUntouched};
ghost use Rattle.session.specs.Reading.{IsPrepared, IsReady, IsInputReading, IsInputOver, AsksBefore};

use crate::model_files::{ModelReading, read_model};
use command_words::{Command, Options, WordsFault, read_words};
use model_core::Model;
use outside::{Files, Source, TakeFault, read_whole};
use report::ModelFault;
use std::alloc::{AllocError, Global};

/// What was read before anything is answered.
#[derive(Drop)]
pub(crate) enum Prepared {
    /// The words are no command.
    Usage,
    /// This is wrong with the first file that has a fault.
    Faulty(ModelFault),
    /// The formulas have too many bytes.
    FormulasLong,
    Lines(Input),
}

/// The model, the options of the command, and the bytes of the formulas.
#[derive(Drop)]
pub(crate) struct Input {
    pub(crate) model: Model,
    pub(crate) options: Options,
    pub(crate) text: Vec<u8>,
}

/// Why nothing can be answered.
#[derive(Clone, Copy, Debug, PartialEq, Eq)]
pub(crate) enum Stop {
    Read,
    Memory,
}

impl From<AllocError> for Stop {
    ghost use Rattle.std.specs.Prelude.{◌≡◌};
    ghost use Rattle.session.specs.declared.reading.Stop.TheVariants.{Memory};

    ghost from_gives = { λ _ stop. stop ≡ Memory };

    fn from(_: AllocError) -> Self {
        Stop::Memory
    }
}

// 1 MiB.
const FORMULAS_LIMIT: usize = 1_048_576;

/// Reads the words, what they name, and then the formulas to their end.
pub(crate) fn prepare<F: Files, S: Source>(
    alloc: Global,
    words: &[String],
    files: &mut F,
    formulas: &mut S,
) -> Result<Prepared, Stop>
    ensures prepared { IfOk result (λ prepared. Say (map string_bytes words.now) (λ command.
        IsPrepared command (F.files files.old) (S.left formulas.old) (S.left formulas.new) prepared)) }
    ensures ready { IfOk result IsReady }
    ensures untouched { Say (map string_bytes words.now) (λ command.
        IsUntouched command (F.files files.old) (S.left formulas.old) (S.left formulas.new)) }
    ensures command { IsErr result → AreCommand (map string_bytes words.now) }
    ensures cause { Say (map string_bytes words.now) (λ command.
        HasReadCause command (F.files files.old) (F.fault_count files.old) (F.fault_count files.new) (S.fault_count formulas.old)
        (S.fault_count formulas.new) (IsErrOf result Stop.Read)) }
    ensures files { F.files files.new ≡ F.files files.old }
    ensures asked { IfSome (F.files files.old) (λ _. Say (map string_bytes words.now) (λ command.
        AsksBefore command result (F.asked files.old) (F.asked files.new))) }
{
    let command = match read_words(alloc, words) {
        Ok(command) => command,
        Err(WordsFault::Usage) => return Ok(Prepared::Usage),
        Err(WordsFault::Memory) => return Err(Stop::Memory),
    };
    read_named(alloc, &command, files, formulas)
}

// Reads the files of the command, and then the formulas.
fn read_named<F: Files, S: Source>(
    alloc: Global,
    command: &Command,
    files: &mut F,
    formulas: &mut S,
) -> Result<Prepared, Stop>
    requires { AreInRange command.now.options }
    ensures prepared { IfOk result (IsPrepared (Some (spoken_by command.now)) (F.files files.old) (S.left formulas.old)
        (S.left formulas.new)) }
    ensures ready { IfOk result IsReady }
    ensures untouched { IsUntouched (Some (spoken_by command.now)) (F.files files.old) (S.left formulas.old) (S.left formulas.new) }
    ensures cause { HasReadCause (Some (spoken_by command.now)) (F.files files.old) (F.fault_count files.old) (F.fault_count files.new)
        (S.fault_count formulas.old) (S.fault_count formulas.new) (IsErrOf result Stop.Read) }
    ensures files { F.files files.new ≡ F.files files.old }
    ensures asked { IfSome (F.files files.old) (λ _. AsksBefore (Some (spoken_by command.now)) result (F.asked files.old)
        (F.asked files.new)) }
{
    match read_model(alloc, files, command)? {
        ModelReading::Faulty(fault) => Ok(Prepared::Faulty(fault)),
        ModelReading::Built(model) => read_input(alloc, model, command.options, formulas),
    }
}

// Reads the formulas over the model.
fn read_input<S: Source>(
    alloc: Global,
    model: Model,
    options: Options,
    formulas: &mut S,
) -> Result<Prepared, Stop>
    ensures input { IfOk result (IsInputOver model options (S.left formulas.old) (S.left formulas.new)) }
    ensures cause { HasCause (S.fault_count formulas.old) (S.fault_count formulas.new) (IsErrOf result Stop.Read) }
{
    match read_whole(alloc, formulas, FORMULAS_LIMIT) {
        Ok(text) => Ok(Prepared::Lines(Input {
            model,
            options,
            text,
        })),
        Err(TakeFault::TooBig) => Ok(Prepared::FormulasLong),
        Err(TakeFault::Failed) => Err(Stop::Read),
        Err(TakeFault::Memory) => Err(Stop::Memory),
    }
}
