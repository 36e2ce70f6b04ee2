// The laws of the definitions, each the contract of a function.
ghost use Rattle.decimal_text.specs.DecimalNumber.{NormalFormIsUnique};
ghost use Rattle.decimal_text.specs.NumberValue.{AWordHasOneValue, EachNumberHasAValue};

/// Two decimals in normal form that are the same number have the same digits and decimals.
pub fn normal_form_is_unique()
    ensures { NormalFormIsUnique }
{}

/// A word stands for one decimal in normal form at most.
pub fn a_word_has_one_value()
    ensures { AWordHasOneValue }
{}

/// Each word that is a number stands for some decimal in normal form.
pub fn each_number_has_a_value()
    ensures { EachNumberHasAValue }
{}
