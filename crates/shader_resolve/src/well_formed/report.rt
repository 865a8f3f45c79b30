//! Sentences that say why a module isn't well formed.
//!
//! A violation prints as the name of its variant; its report prints the sentence.
ghost use Rattle.std.specs.Prelude.{◌≡◌};

use super::{FaultAt, ModuleFault};
use std::fmt;

impl ModuleFault {
    /// Returns what prints a sentence that says why the module isn't well formed.
    pub fn report(self) -> ModuleFaultReport
        ensures { result.fault ≡ self }
    {
        ModuleFaultReport { fault: self }
    }
}

/// A sentence that says why a module isn't well formed.
#[derive(Clone, Copy)]
pub struct ModuleFaultReport {
    pub fault: ModuleFault,
}

impl fmt::Display for ModuleFaultReport {
    fn fmt<W: fmt::Write>(&self, f: &mut fmt::Formatter<W>) -> fmt::Result {
        f.write_str(match self.fault {
            ModuleFault::HandleOutOfRange => "A handle is past the end of its arena",
            ModuleFault::TypeNotEarlier => "A type names itself or a later type",
            ModuleFault::OperandNotEarlier => {
                "An operand is the expression itself or a later one"
            }
            ModuleFault::CalleeNotEarlier => "A called function isn't an earlier one",
            ModuleFault::ArgumentCount => {
                "A call gives more or fewer arguments than its function takes"
            }
            ModuleFault::FilterNotEarlier => {
                "The parent of a diagnostic filter isn't an earlier one"
            }
            ModuleFault::ValuePointerArgument => {
                "A function takes an argument of a value pointer type"
            }
            ModuleFault::EmitRange => "An emitted range ends past the function's expressions",
        })
    }
}

impl FaultAt {
    /// Returns what prints the location and a sentence on the violation.
    pub fn report(self) -> FaultAtReport
        ensures { result.found ≡ self }
    {
        FaultAtReport { found: self }
    }
}

/// A location, and a sentence that says how it violates well-formedness.
#[derive(Clone, Copy)]
pub struct FaultAtReport {
    pub found: FaultAt,
}

impl fmt::Display for FaultAtReport {
    fn fmt<W: fmt::Write>(&self, f: &mut fmt::Formatter<W>) -> fmt::Result {
        let FaultAt { location, fault } = self.found;
        write!(f, "{location}: {}", fault.report())
    }
}
