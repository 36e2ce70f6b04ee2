// The options of the command line.
ghost use Rattle.std.specs.Prelude.{◌≡◌, ◌↔◌, ℕ, IsTrue};
ghost use Rattle.command_words.specs.Setting.{IsChosen, name_of, numbers_of};
ghost use Rattle.command_words.specs.OneWord.{named_by};
ghost use Rattle.command_words.specs.Scan.{HasNumber};
ghost use Rattle.command_words.specs.Steps.{borrowed_in};

use text_lines::whole;

// The least and the greatest number that an option may have, and the one that it has where it
// isn't given.
#[derive(Clone, Copy)]
pub(crate) struct Numbers {
    least: u32,
    most: u32,
    default: u32,
}

const WORKERS: Numbers = Numbers {
    least: 1,
    most: 64,
    default: 4,
};

const BITS: Numbers = Numbers {
    least: 8,
    most: 48,
    default: 30,
};

const JUMPS: Numbers = Numbers {
    least: 1,
    most: 16_384,
    default: 512,
};

const WATCH: Numbers = Numbers {
    least: 0,
    most: 1_000,
    default: 0,
};

const STATE: Numbers = Numbers {
    least: 1,
    most: 65_536,
    default: 1,
};

const WORKERS_NAME: &str = "workers";

const BITS_NAME: &str = "bits";

const JUMPS_NAME: &str = "jumps";

const WATCH_NAME: &str = "watch";

const STATE_NAME: &str = "state";

// An option that has a number.
#[derive(Clone, Copy, PartialEq, Eq)]
pub(crate) enum Setting {
    Workers,
    Bits,
    Jumps,
    Watch,
    State,
}

const SETTINGS: [Setting; 5] = [
    Setting::Workers,
    Setting::Bits,
    Setting::Jumps,
    Setting::Watch,
    Setting::State,
];

impl Setting {
    pub(crate) fn name(self) -> &'static str
        ensures { result.now ≡ name_of self }
    {
        match self {
            Setting::Workers => WORKERS_NAME,
            Setting::Bits => BITS_NAME,
            Setting::Jumps => JUMPS_NAME,
            Setting::Watch => WATCH_NAME,
            Setting::State => STATE_NAME,
        }
    }

    fn numbers(self) -> Numbers
        ensures { result ≡ numbers_of self }
    {
        match self {
            Setting::Workers => WORKERS,
            Setting::Bits => BITS,
            Setting::Jumps => JUMPS,
            Setting::Watch => WATCH,
            Setting::State => STATE,
        }
    }

    // The option whose word this is.
    pub(crate) fn named_by(word: &str) -> Option<Setting>
        ensures { result ≡ named_by word.now }
    {
        let name = word.strip_prefix("--")?;
        SETTINGS
            .iter()
            .find(|setting| setting.name() == name)
            .copied()
    }

    // Whether the value is a whole number that the option may have.
    pub(crate) fn accepts(self, value: &str) -> bool
        ensures { IsTrue result ↔ HasNumber self value.now }
    {
        let numbers = self.numbers();
        match whole(value.as_bytes(), u64::from(numbers.most)) {
            Some(number) => {
                u64::from(numbers.least) <= number && number <= u64::from(numbers.most)
            }
            None => false,
        }
    }

    // The option's number, by its value, or the default where there is none.
    pub(crate) fn number(self, value: Option<&str>) -> u32
        requires { (n : ℕ) × IsChosen self (borrowed_in value) n }
        ensures { IsChosen self (borrowed_in value.entry) result }
    {
        let numbers = self.numbers();
        match value {
            Some(value) => {
                let number = whole(value.as_bytes(), u64::from(numbers.most));
                number.unwrap_or_default() as u32
            }
            None => numbers.default,
        }
    }
}
