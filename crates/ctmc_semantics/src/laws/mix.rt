// The laws of the mix.
ghost use Rattle.ctmc_semantics.specs.MixLaws.{MixEncloses, LowMixRises, HighMixRises, MixIsNarrow, LowMixReads, HighMixReads};

/// The mix of words that enclose some values encloses their averages from the horizon on.
pub fn mix_encloses()
    ensures { MixEncloses }
{}

/// The mix never falls when a word rises.
pub fn mix_rises()
    ensures low { LowMixRises }
    ensures high { HighMixRises }
{}

/// The mixes of words that are near each other are near each other.
pub fn mix_is_narrow()
    ensures { MixIsNarrow }
{}

/// The mix reads the layers up to its last alone.
pub fn mix_reads()
    ensures low { LowMixReads }
    ensures high { HighMixReads }
{}
