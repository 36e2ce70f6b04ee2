// The flag of the command line.
ghost use Rattle.std.specs.Prelude.{◌≡◌};
ghost use Rattle.std.specs.Str.{bytes_eq};
ghost use Rattle.command_words.specs.Setting.{flag_word};

// What the flag is called.
pub(crate) const UNTIL_DECIDED: &str = "until-decided";

// Whether the word is the flag's.
pub(crate) fn is_flag(word: &str) -> bool
    ensures { result ≡ bytes_eq word.now flag_word }
{
    match word.strip_prefix("--") {
        Some(name) => name == UNTIL_DECIDED,
        None => false,
    }
}
