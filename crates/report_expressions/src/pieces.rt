//! The pieces of a line, and what each of them says.
ghost use Rattle.std.specs.Prelude.{◌≡◌};

use shader_arena::Handle;
use shader_ir::{
    Barrier, CollectiveOperation, CooperativeRole, CooperativeSize, Literal, Scalar,
    SubgroupOperation, SwitchValue, VectorSize,
};

/// A word of a line. An item is given by its number.
#[derive(Clone, Copy)]
pub enum Word {
    /// A word or a sign of WGSL, or three dots.
    Fixed(&'static str),
    /// A literal.
    Literal(Literal),
    /// An argument of the function.
    Argument(u32),
    /// A constant.
    Constant(u32),
    /// An override.
    Override(u32),
    /// A global variable.
    Global(u32),
    /// A local variable of the function.
    Local(u32),
    /// A function of the module.
    Function(u32),
    /// A type of the module.
    Type(u32),
    /// The name that the function gives to an expression.
    Named(u32),
    /// The number of an expression.
    Numbered(u32),
    /// A number.
    Index(u32),
    /// A member of a struct, behind its dot.
    Member(u32, u32),
    /// A scalar type.
    Scalar(Scalar),
    /// A vector type.
    Vector(VectorSize, Scalar),
    /// The reinterpretation of bits as a scalar.
    Bitcast(Scalar),
    /// The load of a cooperative matrix, by rows if the last is true.
    CooperativeLoad(CooperativeSize, CooperativeSize, CooperativeRole, bool),
    /// A function that combines the values of a subgroup.
    Collective(SubgroupOperation, CollectiveOperation),
    /// A barrier.
    Barrier(Barrier),
    /// A barrier that only orders memory.
    MemoryBarrier(Barrier),
    /// The value of a case.
    Case(SwitchValue),
}

/// A piece of a line.
#[derive(Clone, Copy)]
pub struct Piece {
    /// The number of the expression that says the word, or `None` for the line itself.
    pub of: Option<u32>,
    pub word: Word,
    /// Whether the piece belongs to the marked operand.
    pub is_marked: bool,
}

/// Returns the number of an item.
pub fn number_of<M>(handle: Handle<M>) -> u32
    ensures { result ≡ handle }
{
    handle.index() as u32
}
