// The laws of the definitions, each the contract of a function.
ghost use Rattle.text_lines.specs.Laws.{LinesOfAreLines, LinesAreUnique, WordsOfAreWords, WordsAreUnique, BlankLinesHaveBlanksAlone, WordLinesOfAreWordLines, WordLinesAreUnique};

/// `lines_of` gives the lines of each text.
pub fn text_has_its_lines()
    ensures { LinesOfAreLines }
{}

/// No text has other lines.
pub fn text_has_no_other_lines()
    ensures { LinesAreUnique }
{}

/// `words_of` gives the words of each line.
pub fn line_has_its_words()
    ensures { WordsOfAreWords }
{}

/// No line has other words.
pub fn line_has_no_other_words()
    ensures { WordsAreUnique }
{}

/// A line is blank, so that it has no words, exactly where each of its bytes is a space or a tab.
pub fn blank_line_has_blanks_alone()
    ensures { BlankLinesHaveBlanksAlone }
{}

/// `word_lines_of` gives the lines of each text that are not blank, by their words.
pub fn text_has_its_word_lines()
    ensures { WordLinesOfAreWordLines }
{}

/// No text has others.
pub fn text_has_no_other_word_lines()
    ensures { WordLinesAreUnique }
{}
