// The laws of the definitions, each the contract of a function.
ghost use Rattle.text_lines.specs.FileLaws.{OneValue, OneFault, NotBoth, ValueOrFault};
ghost use Rattle.tra_reader.specs.TraFault.{TraFaultAt};
ghost use Rattle.tra_reader.specs.TraText.{TraSays};

/// A text stands for one chain at most.
pub fn tra_is_one()
    ensures { OneValue TraSays }
{}

/// A text has one fault at most, at one line.
pub fn tra_fault_is_one()
    ensures { OneFault TraFaultAt }
{}

/// A text that stands for a chain has no fault.
pub fn tra_has_no_fault()
    ensures { NotBoth TraSays TraFaultAt }
{}

/// Each text stands for a chain or has a fault.
pub fn tra_or_fault()
    ensures { ValueOrFault TraSays TraFaultAt }
{}
