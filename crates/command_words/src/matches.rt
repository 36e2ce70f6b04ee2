// The values of the words, which `clap` finds.
ghost use Rattle.std.specs.Prelude.{◌≡◌, ℕ, false, map, string_bytes, IfOk, IfErr};
ghost use Rattle.clap.specs.Matches.{first_value, found_of};
ghost use Rattle.clap.specs.Values.{kind_of};
ghost use Rattle.clap.specs.Walk.{rule_of};
ghost use Rattle.clap.specs.Simple.{app_of, with_rule};
ghost use Rattle.command_words.specs.Setting.{IsChosen, name_of};
ghost use Rattle.command_words.specs.Command.{Spoken, spoken_by, text_in};
ghost use Rattle.command_words.specs.Words.{AreCommand};
ghost use Rattle.command_words.specs.ClapCommand.{app, flag_rule, model_rule, named_rule, option_app};
ghost use Rattle.command_words.specs.Matches.{HoldsCommand, HoldsCommandOf, HoldsSome};

use crate::command::{CMRM, Command, Kind, Options};
use crate::flag::UNTIL_DECIDED;
use crate::setting::Setting;
use clap::error::ErrorKind;
use clap::{Arg, ArgAction, ArgMatches};
use std::alloc::{AllocError, Global};
use std::string::String;

// What the plain words are called.
const MODEL: &str = "model";

// The matches of words that are a command. Only memory can be missing.
pub(crate) fn find_matches(alloc: Global, words: &[String]) -> Result<ArgMatches<'_>, clap::Error>
    requires { AreCommand (map string_bytes words.now) }
    ensures found { IfOk result (λ m. HoldsCommandOf (map string_bytes words.entry.now) (found_of m)) }
    ensures memory { IfErr result (λ e. kind_of e ≡ ErrorKind.OutOfMemory) }
{
    command_of_clap(alloc)?.try_get_matches_from(words)
}

// An option for each setting, the flag, and plain words.
fn command_of_clap<'a>(alloc: Global) -> Result<clap::Command<'a>, AllocError>
    ensures { IfOk result (λ c. app_of c ≡ app) }
{
    let command = command_of_options(alloc)?;
    let command = with_flag(alloc, command)?;
    command.arg(model_arg(alloc))
}

// An option for each setting.
fn command_of_options<'a>(alloc: Global) -> Result<clap::Command<'a>, AllocError>
    ensures { IfOk result (λ c. app_of c ≡ option_app) }
{
    let command = clap::Command::new(alloc, "mrmc_any").disable_help_flag(true);
    let command = with_option(alloc, command, Setting::Workers.name())?;
    let command = with_option(alloc, command, Setting::Bits.name())?;
    let command = with_option(alloc, command, Setting::Jumps.name())?;
    let command = with_option(alloc, command, Setting::Watch.name())?;
    with_option(alloc, command, Setting::State.name())
}

// The command with an option of this name.
fn with_option<'a>(
    alloc: Global,
    command: clap::Command<'a>,
    name: &'a str,
) -> Result<clap::Command<'a>, AllocError>
    ensures { IfOk result (λ c. app_of c ≡ with_rule (app_of command.entry) (named_rule name.entry.now)) }
{
    let option = Arg::new(alloc, name).long(name).action(ArgAction::Set);
    command.arg(option)
}

fn with_flag<'a>(alloc: Global, command: clap::Command<'a>) -> Result<clap::Command<'a>, AllocError>
    ensures { IfOk result (λ c. app_of c ≡ with_rule (app_of command.entry) flag_rule) }
{
    let flag = Arg::new(alloc, UNTIL_DECIDED)
        .long(UNTIL_DECIDED)
        .action(ArgAction::SetTrue);
    command.arg(flag)
}

fn model_arg<'a>(alloc: Global) -> Arg<'a>
    ensures rule { rule_of result ≡ model_rule }
    ensures local { result.global ≡ false }
{
    Arg::new(alloc, MODEL).action(ArgAction::Append)
}

// The command that the matches hold.
pub(crate) fn read_command(alloc: Global, matches: &ArgMatches<'_>) -> Result<Command, AllocError>
    requires { HoldsSome (found_of matches.now) }
    ensures { (c : Spoken) → HoldsCommand (found_of matches.now) c → IfOk result (λ r. spoken_by r ≡ c) }
{
    let words = matches.get_strs(MODEL).unwrap_or_default();
    let kind = if words[0] == CMRM {
        Kind::Cmrm
    } else {
        Kind::Ctmc
    };
    let rew = match words.get(3) {
        Some(name) => Some(String::from_str(alloc, name)?),
        None => None,
    };
    Ok(Command {
        kind,
        tra: String::from_str(alloc, words[1])?,
        lab: String::from_str(alloc, words[2])?,
        rew,
        options: options(matches),
    })
}

fn options(matches: &ArgMatches<'_>) -> Options
    requires { HoldsSome (found_of matches.now) }
    ensures { (c : Spoken) → HoldsCommand (found_of matches.now) c → result ≡ c.options }
{
    Options {
        workers: number(matches, Setting::Workers),
        bits: number(matches, Setting::Bits),
        jumps: number(matches, Setting::Jumps),
        watch: number(matches, Setting::Watch),
        state: number(matches, Setting::State) - 1,
        until_decided: matches.get_flag(UNTIL_DECIDED),
    }
}

fn number(matches: &ArgMatches<'_>, setting: Setting) -> u32
    requires { HoldsSome (found_of matches.now) }
    ensures { IsChosen setting (text_in (first_value (found_of matches.now) (name_of setting))) result }
{
    setting.number(matches.get_str(setting.name()))
}
