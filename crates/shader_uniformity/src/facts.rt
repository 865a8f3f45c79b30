//! Facts about a call of a function, and the implications between them.

use shader_arena::Handle;
use shader_ir::mark;

/// A statement that exits the blocks around it, up to its target.
#[derive(Clone, Copy)]
pub enum Jump {
    /// Exits blocks up to the innermost `Loop` or `Switch`.
    Break,
    /// Exits blocks up to the innermost `Loop`.
    Continue,
    /// Exits all blocks of the function.
    Return,
}

/// A memory location: the end of a pointer's chain of accesses.
#[derive(Clone, Copy)]
pub enum Place {
    /// A local variable, by its number.
    Local(u32),
    /// The memory that the argument of this number points to.
    Pointee(u32),
    /// Memory that other invocations may write, or that isn't known.
    Shared,
    /// Memory that isn't written while the shader runs.
    Fixed,
}

/// A fact about a call of a function by several invocations. Positions number the statements and blocks of the body in the order of
/// the text, from 1. Moments order reads and writes of memory, and are positions too.
#[derive(Clone, Copy)]
pub enum Fact {
    /// Is true in each call.
    Always,
    /// Only some of the invocations make the call.
    Flow,
    /// The argument of this number is non-uniform: it differs among the invocations.
    Argument(u32),
    /// The pointee of the argument of this number is non-uniform when the call begins.
    Behind(u32),
    /// Control flow diverges: only some of the invocations reach this position.
    Apart(u32),
    /// Only some of the invocations exit the block at this position by this jump.
    Leaves(Jump, u32),
    /// The expression is non-uniform.
    Differs(Handle<mark::Expression>),
    /// The memory location is non-uniform from this moment on.
    Holds(Place, u32),
    /// A need is violated: only some of the invocations execute a statement that needs all of them together.
    Must,
    /// The result is non-uniform.
    Gives,
    /// The pointee of the argument of this number is non-uniform when the call ends.
    Left(u32),
}

/// An implication: if the cause is true, so is the effect.
#[derive(Clone, Copy)]
pub struct Rule {
    pub cause: Fact,
    pub effect: Fact,
}

/// A function or an entry point, by its number among those of its kind.
#[derive(Clone, Copy, Debug, PartialEq, Eq)]
pub enum BodyLocation {
    Function(usize),
    EntryPoint(usize),
}
