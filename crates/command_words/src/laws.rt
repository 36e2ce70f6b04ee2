// The laws of the definitions, each the contract of a function.
ghost use Rattle.command_words.specs.Laws.{FlagHasNoValue, FlagStandsAnywhere, LastWordIsNoOption, NoOtherWordIsRead, NoValueBeginsWithHyphen, OptionsAreInRange, WordsAreCommandOrNot, WordsAreReadOneWay, WordsSayOneCommand};

/// Words say one list of parts at most.
pub fn words_are_read_one_way()
    ensures { WordsAreReadOneWay }
{}

/// An option without a value is refused, and so are the flag with one, and any other word before
/// `--` that begins with `-` and is longer than that.
pub fn other_words_are_refused()
    ensures last_word { LastWordIsNoOption }
    ensures hyphen { NoValueBeginsWithHyphen }
    ensures flag { FlagHasNoValue }
    ensures other_word { NoOtherWordIsRead }
{}

/// Words say one command at most.
pub fn words_say_one_command()
    ensures { WordsSayOneCommand }
{}

/// Words are a command, or they are none: which of the two can be found out.
pub fn words_are_a_command_or_not()
    ensures { WordsAreCommandOrNot }
{}

/// The options of a command are in their ranges.
pub fn options_are_in_range()
    ensures { OptionsAreInRange }
{}

/// The flag may stand anywhere before `--`, and sets nothing but itself. It is given once at most.
pub fn flag_stands_anywhere()
    ensures { FlagStandsAnywhere }
{}
