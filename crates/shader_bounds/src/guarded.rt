//! Indexes of accesses, and which of them need a bounds check.
ghost use Rattle.std.specs.Prelude.{◌≡◌, ◌↔◌, IsTrue, IsNone, IsOk, IfSome, Ok, false};
ghost use Rattle.shader_bounds.specs.Lengths.{base_length};
ghost use Rattle.shader_bounds.specs.Guarded.{IndexIsBelow, guarded_index};
ghost use Rattle.shader_bounds.specs.Typed.{length_at, type_at};

use crate::typed::type_of;
use crate::{IndexableLength, IndexableLengthError, base_length, known_index_among};
use shader_arena::{Arena, Handle};
use shader_info::FunctionInfo;
use shader_ir::proc::{KnownIndex, TypeResolution};
use shader_ir::{Expression, Module, mark};

/// The index of an access: the number of an `AccessIndex`, or the operand of an `Access`.
#[derive(Clone, Copy, Debug)]
pub enum GuardedIndex {
    /// A constant number.
    Known(u32),
    /// An expression of the function.
    Expression(Handle<mark::Expression>),
}

impl GuardedIndex {
    /// Returns the known value of the index, as far as there is one.
    pub fn known(
        self,
        expressions: &Arena<Expression, mark::Expression>,
        module: &Module,
    ) -> KnownIndex
        ensures { result ≡ guarded_index «module».now expressions.now self }
    {
        match self {
            GuardedIndex::Known(index) => KnownIndex::Known(index),
            GuardedIndex::Expression(expression) => {
                known_index_among(expressions, expression, module)
            }
        }
    }
}

/// Returns whether both are known and the index is below the length.
fn is_below(index: KnownIndex, length: IndexableLength) -> bool
    ensures { IsTrue result ↔ IndexIsBelow index (Ok length) }
{
    match index {
        KnownIndex::Known(index) => match length {
            IndexableLength::Known(length) => index < length,
            IndexableLength::Dynamic => false,
        },
        KnownIndex::OutOfRange | KnownIndex::NotInteger => false,
    }
}

/// Returns the length of the indexed value once the overrides have values, as `access_needs_check` requires it.
///
/// # Errors
///
/// The indexed value has no length, as a struct has none, or no recorded type, or an override gives no size.
pub fn length_of_base(
    base: Handle<mark::Expression>,
    module: &Module,
    info: &FunctionInfo,
) -> Result<IndexableLength, IndexableLengthError>
    ensures { result ≡ length_at «module».now (type_at info.now base) }
{
    match type_of(info, base) {
        Some(ty) => base_length(ty, module),
        None => Err(IndexableLengthError::TypeNotIndexable),
    }
}

/// Returns the length of an indexed value that has one.
fn some_length(
    base: Handle<mark::Expression>,
    module: &Module,
    info: &FunctionInfo,
) -> IndexableLength
    requires { IsOk (length_at «module».now (type_at info.now base)) }
    ensures { length_at «module».now (type_at info.now base) ≡ Ok result }
{
    match length_of_base(base, module, info) {
        Ok(length) => length,
        Err(_) => unreachable!(),
    }
}

/// Returns the length with which an index has to be compared, or `None` if the index is known to be below the length.
///
/// The expressions are those of the indexing function, whose info is given. `length_of_base` checks the precondition, which an access to a
/// member of a struct fails. No policy is read: `BoundsCheckPolicies::choose_policy` returns the one that applies.
pub fn access_needs_check(
    base: Handle<mark::Expression>,
    index: GuardedIndex,
    module: &Module,
    expressions: &Arena<Expression, mark::Expression>,
    info: &FunctionInfo,
) -> Option<IndexableLength>
    requires { IsOk (length_at «module».now (type_at info.now base)) }
    ensures none { IsNone result ↔ IndexIsBelow (guarded_index «module».now expressions.now index)
        (length_at «module».now (type_at info.now base)) }
    ensures some { IfSome result (λ length. length_at «module».now (type_at info.now base) ≡ Ok length) }
{
    let length = some_length(base, module, info);
    if is_below(index.known(expressions, module), length) {
        None
    } else {
        Some(length)
    }
}

/// Returns whether the index isn't known to be below the length of a base of this type.
pub(crate) fn is_unknown(
    base: &TypeResolution,
    index: GuardedIndex,
    module: &Module,
    expressions: &Arena<Expression, mark::Expression>,
) -> bool
    ensures { (result ≡ false) ↔ IndexIsBelow (guarded_index «module».now expressions.now index) (base_length «module».now base.now) }
{
    match base_length(base, module) {
        Ok(length) => !is_below(index.known(expressions, module), length),
        Err(_) => true,
    }
}
