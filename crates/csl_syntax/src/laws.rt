// The laws of the definitions, each the contract of a function. They hold for any list of labels.
ghost use Rattle.csl_syntax.specs.Laws.{OneFormula, OneFormulaFault, FormulaHasNoFault, FormulaOrFault, FormulasAreOverLabels};

/// A line stands for one formula at most.
pub fn formula_is_one()
    ensures { OneFormula }
{}

/// A line has one fault at most, in one column.
pub fn formula_fault_is_one()
    ensures { OneFormulaFault }
{}

/// A line that stands for a formula has no fault.
pub fn formula_has_no_fault()
    ensures { FormulaHasNoFault }
{}

/// Each line stands for a formula or has a fault.
pub fn formula_or_fault()
    ensures { FormulaOrFault }
{}

/// The formula for which a line stands has labels of the list alone, and thresholds of at most 1.
pub fn formulas_are_over_labels()
    ensures { FormulasAreOverLabels }
{}
