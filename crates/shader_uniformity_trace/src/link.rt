//! The links of a chain to a source.
use shader_arena::Handle;
use shader_ir::mark;

/// The location of a function in a module.
#[derive(Clone, Copy, Debug, PartialEq, Eq)]
pub enum FunctionLocation {
    /// A function that may be called.
    Function(Handle<mark::Function>),
    /// The entry point at this position in the module's list.
    EntryPoint(usize),
}

/// A value that may differ among invocations: a link of a chain that ends at a source.
#[derive(Clone, Copy, Debug, PartialEq, Eq)]
pub enum Link {
    /// An expression of the function at the location.
    Expression(FunctionLocation, Handle<mark::Expression>),
    /// The result of the function at the location.
    Result(FunctionLocation),
}
