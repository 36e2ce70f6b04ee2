// Whether words are a command.
ghost use Rattle.std.specs.Prelude.{◌≡◌, ◌↔◌, ◌||◌, List, ◌∷◌, None, IsTrue, MatchOption, length, map, option_map, string_bytes};
ghost use Rattle.command_words.specs.Setting.{Text};
ghost use Rattle.command_words.specs.Parts.{flag, given, is_same, plain};
ghost use Rattle.command_words.specs.Words.{AreCommand};
ghost use Rattle.command_words.specs.Reading.{HaveParts, parts_from};
ghost use Rattle.command_words.specs.Scan.{Completes, IsSeenAfter, NameFiles, files_after, is_given};
ghost use Rattle.command_words.specs.Steps.{part_in};

use crate::command::{CMRM, CTMC};
use crate::place::{Part, Place};
use crate::setting::Setting;
use std::string::String;

// Whether the words, the first of which is the program's name, are a command. It takes no memory.
pub(crate) fn are_command(words: &[String]) -> bool
    ensures { IsTrue result ↔ AreCommand (map string_bytes words.now) }
{
    let [_, words @ ..] = words else {
        return false;
    };
    complete(words)
}

// Whether the words that follow the program's name make a command.
fn complete(words: &[String]) -> bool
    ensures { IsTrue result ↔ HaveParts (Completes Seen.NOTHING) (parts_from Place.Open (map string_bytes words.now)) }
{
    let mut place = Place::Open;
    let mut seen = Seen::NOTHING;
    for word in words {
        let Some(step) = place.step(word.as_str()) else {
            return false;
        };
        let Some(more) = seen.after(step.part) else {
            return false;
        };
        place = step.place;
        seen = more;
    }
    place.may_end() && seen.missing == Some(0)
}

// What the words so far have: how many names of files are missing, None before the word of a kind,
// which options are given, and whether the flag is.
#[derive(Clone, Copy)]
struct Seen {
    missing: Option<u32>,
    given: Given,
    until_decided: bool,
}

impl Seen {
    const NOTHING: Seen = Seen {
        missing: None,
        given: Given::NONE,
        until_decided: false,
    };

    // What is seen after one more part, or None where there is no command with these parts.
    fn after(self, part: Option<Part<'_>>) -> Option<Seen>
        ensures { IsSeenAfter self (option_map part_in part.entry) result }
    {
        match part {
            None => Some(self),
            Some(Part::Plain(word)) => self.after_plain(word),
            Some(Part::Flag) => self.after_flag(),
            Some(Part::Given(setting, value)) => self.after_given(setting, value),
        }
    }

    fn after_plain(self, word: &str) -> Option<Seen>
        ensures { IsSeenAfter self (Some (plain word.now)) result }
    {
        let missing = missing_after(self.missing, word)?;
        Some(Seen {
            missing: Some(missing),
            ..self
        })
    }

    fn after_flag(self) -> Option<Seen>
        ensures { IsSeenAfter self (Some flag) result }
    {
        if self.until_decided {
            return None;
        }
        Some(Seen {
            until_decided: true,
            ..self
        })
    }

    fn after_given(self, setting: Setting, value: &str) -> Option<Seen>
        ensures { IsSeenAfter self (Some (given setting value.now)) result }
    {
        if self.given.has(setting) || !setting.accepts(value) {
            return None;
        }
        let given = self.given.with(setting);
        Some(Seen { given, ..self })
    }
}

// How many names are missing after one more plain word, or None where there are too many, or the
// kind is none.
fn missing_after(missing: Option<u32>, word: &str) -> Option<u32>
    ensures { MatchOption result
        ((words : List Text) → ¬ NameFiles missing (word.now ∷ words))
        (λ n. (words : List Text) → NameFiles missing (word.now ∷ words) ↔ (length words ≡ n)) }
{
    match missing {
        None => files_after(word),
        Some(count) => count.checked_sub(1),
    }
}

// How many names of files follow the word of a kind.
fn files_after(kind: &str) -> Option<u32>
    ensures { result ≡ files_after kind.now }
{
    match kind {
        CTMC => Some(2),
        CMRM => Some(3),
        _ => None,
    }
}

// Which options are given.
#[derive(Clone, Copy)]
struct Given {
    workers: bool,
    bits: bool,
    jumps: bool,
    watch: bool,
    state: bool,
}

impl Given {
    const NONE: Given = Given {
        workers: false,
        bits: false,
        jumps: false,
        watch: false,
        state: false,
    };

    fn has(self, setting: Setting) -> bool
        ensures { result ≡ is_given self setting }
    {
        match setting {
            Setting::Workers => self.workers,
            Setting::Bits => self.bits,
            Setting::Jumps => self.jumps,
            Setting::Watch => self.watch,
            Setting::State => self.state,
        }
    }

    fn with(mut self, setting: Setting) -> Given
        ensures { (s : Setting) → is_given result s ≡ (is_same setting s || is_given self s) }
    {
        match setting {
            Setting::Workers => self.workers = true,
            Setting::Bits => self.bits = true,
            Setting::Jumps => self.jumps = true,
            Setting::Watch => self.watch = true,
            Setting::State => self.state = true,
        }
        self
    }
}
