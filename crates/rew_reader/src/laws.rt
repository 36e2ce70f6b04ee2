// The laws of the definitions, each the contract of a function. They hold for any number n of states.
ghost use Rattle.std.specs.Prelude.{ℕ};
ghost use Rattle.text_lines.specs.FileLaws.{OneValue, OneFault, NotBoth, ValueOrFault};
ghost use Rattle.rew_reader.specs.RewFault.{RewFaultAt};
ghost use Rattle.rew_reader.specs.RewText.{RewSays};

/// Over n states a text is read in one way at most.
pub fn rew_is_one()
    ensures { (n : ℕ) → OneValue (λ text rew. RewSays text n rew) }
{}

/// A text has one fault at most, at one line.
pub fn rew_fault_is_one()
    ensures { (n : ℕ) → OneFault (λ text. RewFaultAt text n) }
{}

/// A text that can be read has no fault.
pub fn rew_has_no_fault()
    ensures { (n : ℕ) → NotBoth (λ text rew. RewSays text n rew) (λ text. RewFaultAt text n) }
{}

/// Each text can be read or has a fault.
pub fn rew_or_fault()
    ensures { (n : ℕ) → ValueOrFault (λ text rew. RewSays text n rew) (λ text. RewFaultAt text n) }
{}
