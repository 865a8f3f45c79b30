//! The codes of diagnostics. A code is never reused, and its meaning never changes.
ghost use Rattle.std.specs.Prelude.{◌≡◌};
ghost use Rattle.report_diagnostics.specs.Codes.{code_text, name_text};

use crate::body_codes::{FlowCode, ResourceCode, TypeCode};
use crate::module_codes::{InputCode, LayoutCode, ModuleCode};

/// The kind of a diagnostic, by its group.
#[derive(Clone, Copy, Debug, PartialEq, Eq)]
pub enum Code {
    /// The input is no module.
    Input(InputCode),
    /// The module isn't well formed.
    Module(ModuleCode),
    /// An expression has no type.
    Type(TypeCode),
    /// A type has no layout.
    Layout(LayoutCode),
    /// A resource is used in a way that isn't allowed.
    Resource(ResourceCode),
    /// Only some invocations may reach what needs all of them.
    Flow(FlowCode),
    /// An expression is used more often than can be counted.
    TooManyUses,
}

impl Code {
    /// Returns the code, as `U103`.
    pub fn code(self) -> &'static str
        ensures { result.now ≡ code_text self }
    {
        match self {
            Code::Input(code) => code.code(),
            Code::Module(code) => code.code(),
            Code::Type(code) => code.code(),
            Code::Layout(code) => code.code(),
            Code::Resource(code) => code.code(),
            Code::Flow(code) => code.code(),
            Code::TooManyUses => "C001",
        }
    }

    /// Returns the name, as `barrier-in-divergent-flow`.
    pub fn name(self) -> &'static str
        ensures { result.now ≡ name_text self }
    {
        match self {
            Code::Input(code) => code.name(),
            Code::Module(code) => code.name(),
            Code::Type(code) => code.name(),
            Code::Layout(code) => code.name(),
            Code::Resource(code) => code.name(),
            Code::Flow(code) => code.name(),
            Code::TooManyUses => "too-many-uses",
        }
    }
}
