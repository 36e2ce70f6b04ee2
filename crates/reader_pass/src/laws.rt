// The laws of what a pass reads, each the contract of a function.
ghost use Rattle.reader_pass.specs.NotedWords.{BetterNotesAreNarrower, NotesEncloseOneThread};

/// A pass that knows more reads narrower brackets, and each encloses the bracket that one thread
/// computes.
///
/// Notes never get worse in a call on a board, a pass that is split off knows the same, and passes
/// that meet know what both knew. So each bracket lies in all earlier ones.
pub fn better_notes_are_narrower()
    ensures narrower { BetterNotesAreNarrower }
    ensures enclose { NotesEncloseOneThread }
{}
