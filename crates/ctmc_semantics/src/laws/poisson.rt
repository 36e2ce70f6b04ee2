// The laws of Poisson averages.
ghost use Rattle.ctmc_semantics.specs.PoissonLaws.{AveragesRise, AveragesAreFractions, AveragesAreAtMostOne, AveragesAreOfTheRows};
ghost use Rattle.ctmc_semantics.specs.PoissonLaws.{AveragesGrow, TailIsSmall, AveragesStayNear};

/// The average of a bounded until never falls as its cut grows, and never passes 1.
pub fn averages_rise()
    ensures rise { AveragesRise }
    ensures fractions { AveragesAreFractions }
    ensures at_most_one { AveragesAreAtMostOne }
{}

/// Rows fix the averages: any two weightings with the same rows have the same ones.
pub fn averages_are_of_the_rows()
    ensures { AveragesAreOfTheRows }
{}

/// The average of a bounded until never falls when its live states or its goal grow.
pub fn averages_grow()
    ensures { AveragesGrow }
{}

/// Past the horizon little weight is left, so the averages stay near the one at it.
pub fn tail_is_small()
    ensures weights { TailIsSmall }
    ensures averages { AveragesStayNear }
{}
