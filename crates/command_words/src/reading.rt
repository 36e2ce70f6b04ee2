// The command that the words of a command line say.
ghost use Rattle.std.specs.Prelude.{◌≡◌, ◌↔◌, map, string_bytes, IfOk};
ghost use Rattle.clap.specs.Values.{kind_of};
ghost use Rattle.command_words.specs.Command.{spoken_by};
ghost use Rattle.command_words.specs.Laws.{AreInRange};
ghost use Rattle.command_words.specs.Words.{AreCommand, WordsSay};

use crate::command::{Command, WordsFault};
use crate::matches::{find_matches, read_command};
use crate::scan::are_command;
use clap::error::ErrorKind;
use std::alloc::Global;
use std::string::String;

/// The command that the words say. The first of them is the program's name, which isn't read.
///
/// Whether they are a command is found without memory. The values of one are then found by `clap`,
/// whose texts of help and faults are never made.
///
/// # Errors
///
/// `Usage` where the words are no command, and `Memory` where they are one and memory runs out.
pub fn read_words(alloc: Global, words: &[String]) -> Result<Command, WordsFault>
    ensures command { IfOk result (λ c. WordsSay (map string_bytes words.now) (spoken_by c)) }
    ensures range { IfOk result (λ c. AreInRange c.options) }

    ensures usage { (result ≡ Err WordsFault.Usage) ↔ (¬ AreCommand (map string_bytes words.now)) }
    ensures memory { result ≡ Err WordsFault.Memory → AreCommand (map string_bytes words.now) }
{
    if !are_command(words) {
        return Err(WordsFault::Usage);
    }
    let matches = match find_matches(alloc, words) {
        Ok(matches) => matches,
        Err(refusal) => return Err(want_of_memory(refusal)),
    };
    Ok(read_command(alloc, &matches)?)
}

// The words are a command, so `clap` refuses them for want of memory alone.
fn want_of_memory(_refusal: clap::Error) -> WordsFault
    requires { kind_of _refusal ≡ ErrorKind.OutOfMemory }
    ensures { result ≡ WordsFault.Memory }
{
    WordsFault::Memory
}

#[cfg(test)]
mod tests;
