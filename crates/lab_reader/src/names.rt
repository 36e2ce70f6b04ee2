// The names of labels that are declared.
ghost use Rattle.std.specs.Prelude.{◌≡◌, ◌<◌, length, slice_index_or, [], Contains, MatchOption};
ghost use Rattle.lab_reader.specs.Reading.{IsFreshName};
ghost use Rattle.lab_reader.specs.LabFault.{NameFailsBy};

use model_core::MOST_LABELS;
use text_lines::{FileWhat, Name, is_name};

/// The place of a word among the names, None where it is none of them.
pub(crate) fn place_of(names: &[Name], word: &[u8]) -> Option<usize>
    ensures { MatchOption result (¬ Contains names.now word.now) (λ j. (j < length names.now) × (slice_index_or names.now j [] ≡ word.now)) }
{
    names.iter().position(|name| name.bytes() == word)
}

/// The first check that a word fails that is to be declared after these names, None where it fails none.
pub(crate) fn name_fault(names: &[Name], word: &[u8]) -> Option<FileWhat>
    ensures { MatchOption result (IsFreshName names.now word.now) (NameFailsBy names.now word.now) }
{
    if !is_name(word) {
        return Some(FileWhat::Name);
    }
    if place_of(names, word).is_some() {
        return Some(FileWhat::RepeatedName);
    }
    if names.len() == MOST_LABELS {
        return Some(FileWhat::LabelsRange);
    }
    None
}
