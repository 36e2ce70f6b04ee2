// One step over the words.
ghost use Rattle.std.specs.Prelude.{◌≡◌, [], Some, None, MatchBool, option_map};
ghost use Rattle.command_words.specs.Parts.{is_plain};
ghost use Rattle.command_words.specs.OneWord.{ends, goes_to, open_step, step_of};
ghost use Rattle.command_words.specs.Reading.{parts_at_end};
ghost use Rattle.command_words.specs.Steps.{part_in, step_in};

use crate::flag::is_flag;
use crate::setting::Setting;

// Where the words are read: before `--`, at an option's value, or after `--`.
#[derive(Clone, Copy)]
pub(crate) enum Place {
    Open,
    Value(Setting),
    Closed,
}

// What the words say: an option with its value, the flag, or a plain word.
#[derive(Clone, Copy)]
pub(crate) enum Part<'a> {
    Given(Setting, &'a str),
    Flag,
    Plain(&'a str),
}

// What one more word does: the place after it, and the part that it ends, if any.
#[derive(Clone, Copy)]
pub(crate) struct Step<'a> {
    pub(crate) place: Place,
    pub(crate) part: Option<Part<'a>>,
}

impl Place {
    // The step of one more word, or None where it can't be read.
    pub(crate) fn step(self, word: &str) -> Option<Step<'_>>
        ensures { option_map step_in result ≡ step_of self word.now }
    {
        match self {
            Place::Open => open_step(word),
            Place::Value(setting) => {
                if word.starts_with('-') {
                    None
                } else {
                    Some(ending(Part::Given(setting, word), Place::Open))
                }
            }
            Place::Closed => Some(ending(Part::Plain(word), Place::Closed)),
        }
    }

    // Whether the words may end here: no option waits for its value.
    pub(crate) fn may_end(self) -> bool
        ensures { MatchBool result (parts_at_end self ≡ Some []) (parts_at_end self ≡ None) }
    {
        !matches!(self, Place::Value(_))
    }
}

// A step before `--`, where no option waits for its value.
fn open_step(word: &str) -> Option<Step<'_>>
    ensures { option_map step_in result ≡ open_step word.now }
{
    if word == "--" {
        return Some(going_to(Place::Closed));
    }
    if is_plain(word) {
        return Some(ending(Part::Plain(word), Place::Open));
    }
    if is_flag(word) {
        return Some(ending(Part::Flag, Place::Open));
    }
    match word.split_once('=') {
        Some((name, value)) => {
            let setting = Setting::named_by(name)?;
            Some(ending(Part::Given(setting, value), Place::Open))
        }
        None => {
            let setting = Setting::named_by(word)?;
            Some(going_to(Place::Value(setting)))
        }
    }
}

// A word that doesn't begin with `-`, or the single `-`.
fn is_plain(word: &str) -> bool
    ensures { result ≡ is_plain word.now }
{
    !word.starts_with('-') || word == "-"
}

fn going_to<'a>(place: Place) -> Step<'a>
    ensures { step_in result ≡ goes_to place }
{
    Step { place, part: None }
}

fn ending(part: Part<'_>, place: Place) -> Step<'_>
    ensures { step_in result ≡ ends (part_in part.entry) place }
{
    Step {
        place,
        part: Some(part),
    }
}
