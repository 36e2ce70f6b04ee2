// The laws of the definitions, each the contract of a function. They hold for any number n of states.
ghost use Rattle.std.specs.Prelude.{ℕ};
ghost use Rattle.text_lines.specs.FileLaws.{OneValue, OneFault, NotBoth, ValueOrFault};
ghost use Rattle.lab_reader.specs.LabFault.{LabFaultAt};
ghost use Rattle.lab_reader.specs.LabText.{LabSays};

/// Over n states a text is read in one way at most.
pub fn lab_is_one()
    ensures { (n : ℕ) → OneValue (λ text lab. LabSays text n lab) }
{}

/// A text has one fault at most, at one line.
pub fn lab_fault_is_one()
    ensures { (n : ℕ) → OneFault (λ text. LabFaultAt text n) }
{}

/// A text that can be read has no fault.
pub fn lab_has_no_fault()
    ensures { (n : ℕ) → NotBoth (λ text lab. LabSays text n lab) (λ text. LabFaultAt text n) }
{}

/// Each text can be read or has a fault.
pub fn lab_or_fault()
    ensures { (n : ℕ) → ValueOrFault (λ text lab. LabSays text n lab) (λ text. LabFaultAt text n) }
{}
