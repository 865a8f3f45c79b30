//! The accesses of a function that need a bounds check.
ghost use Rattle.std.specs.Prelude.{◌≡◌, ◌++◌, IfOk, OnOk, option_to_list};
ghost use Rattle.shader_report_bounds.specs.Accesses.{accesses_of, check_of, check_with, unmet, unmet_at};

use shader_arena::Handle;
use shader_bounds::{
    BoundsCheckPolicies, BoundsCheckPolicy, GuardedIndex, IndexableLength, length_of_base,
};
use shader_info::FunctionInfo;
use shader_ir::proc::KnownIndex;
use shader_ir::{Expression, Function, Module, mark};
use std::alloc::{AllocError, Global};

/// The index of an access.
#[derive(Clone, Copy, Debug)]
pub enum AccessIndex {
    /// The number of an `AccessIndex`.
    Known(u32),
    /// The position of the operand of an `Access`.
    Computed(usize),
}

/// An access that needs a check: its index isn't known to be below the length.
#[derive(Clone, Copy, Debug)]
pub struct AccessCheck {
    /// The position of the access, an `Access` or an `AccessIndex`.
    pub access: usize,
    /// The position of the expression that is accessed.
    pub base: usize,
    pub index: AccessIndex,
    /// The length with which the index has to be compared.
    pub length: IndexableLength,
    /// The policy for an index that isn't below the length.
    pub policy: BoundsCheckPolicy,
}

/// Returns the length with which an index has to be compared, or none if it is known to be below it.
fn unmet(index: KnownIndex, length: IndexableLength) -> Option<IndexableLength>
    ensures { result ≡ unmet index length }
{
    match (index, length) {
        (KnownIndex::Known(index), IndexableLength::Known(count)) if index < count => None,
        _ => Some(length),
    }
}

/// Returns the length with which an index into a base has to be compared.
fn unmet_at(
    module: &Module,
    function: &Function,
    info: &FunctionInfo,
    base: Handle<mark::Expression>,
    index: GuardedIndex,
) -> Option<IndexableLength>
    ensures { result ≡ unmet_at «module».now function.now info.now base index }
{
    match length_of_base(base, module, info) {
        Ok(length) => unmet(index.known(&function.expressions, module), length),
        Err(_) => None,
    }
}

/// Returns the check with the length, if there is one.
fn check_with(
    access: usize,
    base: usize,
    index: AccessIndex,
    policy: BoundsCheckPolicy,
    length: Option<IndexableLength>,
) -> Option<AccessCheck>
    ensures { result ≡ check_with access base index policy length }
{
    match length {
        Some(length) => Some(AccessCheck {
            access,
            base,
            index,
            length,
            policy,
        }),
        None => None,
    }
}

/// Returns the check that an expression needs.
fn check_of(
    module: &Module,
    function: &Function,
    info: &FunctionInfo,
    policies: &BoundsCheckPolicies,
    access: Handle<mark::Expression>,
    expression: &Expression,
) -> Option<AccessCheck>
    ensures { result ≡ check_of «module».now function.now info.now policies.now access expression.now }
{
    match expression {
        Expression::Access { base, index } => {
            let policy = policies.choose_policy(*base, &module.types, info);
            let guarded = GuardedIndex::Expression(*index);
            let length = unmet_at(module, function, info, *base, guarded);
            let index = AccessIndex::Computed(index.index());
            check_with(access.index(), base.index(), index, policy, length)
        }
        Expression::AccessIndex { base, index } => {
            let policy = policies.choose_policy(*base, &module.types, info);
            let guarded = GuardedIndex::Known(*index);
            let length = unmet_at(module, function, info, *base, guarded);
            let index = AccessIndex::Known(*index);
            check_with(access.index(), base.index(), index, policy, length)
        }
        _ => None,
    }
}

/// Adds a check, if there is one.
fn add(checks: &mut Vec<AccessCheck>, check: Option<AccessCheck>) -> Result<(), AllocError>
    ensures { OnOk result (checks.new.items ≡ checks.old.items ++ option_to_list check) }
{
    match check {
        Some(check) => {
            checks.push(check)?;
            Ok(())
        }
        None => Ok(()),
    }
}

/// Returns the accesses of a function that need a check, ascending, each with the length with which its index has to be compared and the
/// policy that applies.
///
/// An access to a member of a struct needs none, nor does one whose base has no length. With types that the analysis records and known
/// sizes, the base of each other access has a length.
///
/// # Errors
///
/// `AllocError` if allocating one check per access fails.
pub fn accesses_of(
    alloc: Global,
    module: &Module,
    function: &Function,
    info: &FunctionInfo,
    policies: BoundsCheckPolicies,
) -> Result<Vec<AccessCheck>, AllocError>
    ensures { IfOk result (λ checks. checks.items ≡ accesses_of «module».now function.now info.now policies) }
{
    let mut checks = Vec::new(alloc);
    for (access, expression) in function.expressions.iter() {
        let check = check_of(module, function, info, &policies, access, expression);
        add(&mut checks, check)?;
    }
    Ok(checks)
}
