//! Needs of uniform control flow, and what violates them.

use shader_arena::Handle;
use shader_ir::mark;
use shader_uniformity::{BodyLocation, Fact};

/// Why a statement or an expression needs all invocations together (WGSL, "Uniformity").
#[derive(Clone, Copy, Debug, PartialEq, Eq)]
pub enum NeedKind {
    /// A derivative is computed from neighbouring invocations.
    Derivative,
    /// A sample takes its level of detail from neighbouring invocations.
    ImplicitLevel,
    /// A control barrier waits for all invocations of the work group.
    Barrier,
    /// A memory barrier, which WGSL lets only a control barrier contain.
    MemoryBarrier,
    /// A uniform load gives one value, from one place, to all invocations of the work group.
    UniformLoad,
    /// A load, store or product of a cooperative matrix is made by the invocations of a subgroup together.
    CooperativeOperation,
}

/// A need of uniform control flow: that of a statement, or of an expression that an `Emit` evaluates.
#[derive(Clone, Copy)]
pub struct Need {
    /// The position of the statement in its body, as those of `Fact`.
    pub position: u32,
    /// The expression that needs it, or `None` if the statement itself does.
    pub expression: Option<Handle<mark::Expression>>,
    pub kind: NeedKind,
    /// The fact that violates the need: control flow diverges at the statement, or invocations pass different pointers to a uniform load.
    pub violated_by: Fact,
}

/// A need that only some of the invocations may reach, or that different pointers violate.
#[derive(Clone, Copy)]
pub struct Violation {
    /// The function or entry point whose body has the need.
    pub place: BodyLocation,
    pub need: Need,
}

/// A fact of a caller that makes another fact true when a called function begins.
#[derive(Clone, Copy)]
pub struct Pass {
    /// The called function.
    pub function: Handle<mark::Function>,
    /// The caller's fact.
    pub cause: Fact,
    /// The called function's fact.
    pub beginning: Fact,
}
