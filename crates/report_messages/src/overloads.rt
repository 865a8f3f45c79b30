//! The overloads of a built-in function that a call comes close to.
ghost use Rattle.std.specs.Prelude.{◌≡◌, All, IfOk, IfSome, is_some, length};
ghost use Rattle.shader_ir.specs.TypeTree.{IsBackward, PointsBelow};
ghost use Rattle.shader_overloads.specs.Builtins.{rule_meant};
ghost use Rattle.report_messages.specs.Overloads.{IsAtFault};

use shader_arena::UniqueArena;
use shader_ir::proc::{TypeResolution, types_backward};
use shader_ir::{MathFunction, Module, Scalar, Type, TypeInner, mark};
use shader_overloads::{MathOverloads, OverloadSet, Rule, rule_of};
use std::alloc::{AllocError, Global};

/// The most overloads that are shown.
const MOST_SHOWN: usize = 3;

/// The number of ranks by which overloads are sorted.
const RANKS: u32 = 6;

/// Returns whether an overload accepts arguments of these types, as far as they are given.
fn is_accepted(
    alloc: Global,
    function: MathFunction,
    arguments: &[TypeInner],
    types: &UniqueArena<Type, mark::Type>,
) -> Result<bool, AllocError>
    requires backward { IsBackward types.now }
    requires in_range { All (PointsBelow (length types.now)) arguments.now }
    ensures { IfOk result (λ accepted. accepted ≡ is_some (rule_meant types.now function arguments.now)) }
{
    let rule = rule_of(alloc, function, arguments, types)?;
    Ok(rule.is_some())
}

/// Returns the argument at fault: the first one such that no overload accepts it and those before it.
fn argument_at_fault(
    alloc: Global,
    function: MathFunction,
    arguments: &[TypeInner],
    types: &UniqueArena<Type, mark::Type>,
) -> Result<Option<usize>, AllocError>
    requires backward { IsBackward types.now }
    requires in_range { All (PointsBelow (length types.now)) arguments.now }
    ensures { IfOk result (λ found. IfSome found (IsAtFault types.now function arguments.now)) }
{
    for index in 0..arguments.len() {
        let is_before_accepted = is_accepted(alloc, function, &arguments[..index], types)?;
        if is_before_accepted && !is_accepted(alloc, function, &arguments[..index + 1], types)? {
            return Ok(Some(index));
        }
    }
    Ok(None)
}

/// The argument at fault, and the overloads that accept those before it.
#[derive(Drop)]
pub struct AtFault {
    /// The number of the argument, from 0.
    pub index: usize,
    /// The closest of these overloads, at most three.
    pub closest: Vec<Rule>,
    /// The number of these overloads.
    pub left: usize,
    /// The number of all overloads of the function.
    pub all: usize,
}

/// Returns the overloads that accept the first argument if it isn't at fault itself. The types of calls follow from two arguments.
fn rules_left(
    alloc: Global,
    module: &Module,
    function: MathFunction,
    arguments: &[TypeInner],
    index: usize,
) -> Result<Vec<Rule>, AllocError>
    requires { IsBackward «module».now.types }
{
    let all = function.overloads(alloc)?;
    let left = match arguments.first() {
        Some(first) if index > 0 && first.is_in_range(&module.types) => {
            all.arg(alloc, 0, first, &module.types)?
        }
        _ => all,
    };
    left.overload_list(alloc, module.to_ctx())
}

/// Returns the type of an argument of an overload, if it has it.
pub fn wanted_type<'a>(module: &'a Module, rule: &'a Rule, index: usize) -> Option<&'a TypeInner> {
    match rule.arguments.as_slice().get(index)? {
        TypeResolution::Handle(ty) => match module.types.try_get(*ty) {
            Some(found) => Some(&found.inner),
            None => None,
        },
        TypeResolution::Value(inner) => Some(inner),
    }
}

/// Returns the scalar of a scalar, a vector or a matrix.
fn scalar_in(inner: &TypeInner) -> Option<Scalar> {
    match inner {
        TypeInner::Scalar(scalar) => Some(*scalar),
        TypeInner::Vector { scalar, .. } | TypeInner::Matrix { scalar, .. } => Some(*scalar),
        _ => None,
    }
}

/// Checks whether two types are alike, except for their scalars.
pub fn has_shape(one: &TypeInner, other: &TypeInner) -> bool {
    match one {
        TypeInner::Scalar(_) => matches!(other, TypeInner::Scalar(_)),
        TypeInner::Vector { size, .. } => match other {
            TypeInner::Vector { size: wanted, .. } => size == wanted,
            _ => false,
        },
        TypeInner::Matrix { columns, rows, .. } => match other {
            TypeInner::Matrix {
                columns: wanted_columns,
                rows: wanted_rows,
                ..
            } => columns == wanted_columns && rows == wanted_rows,
            _ => false,
        },
        _ => false,
    }
}

/// Returns the rank of a wanted type: concrete ones before abstract ones, and the common ones first.
fn rank_of(wanted: &TypeInner) -> u32 {
    match scalar_in(wanted) {
        Some(Scalar::F32) => 0,
        Some(Scalar::I32) => 1,
        Some(Scalar::U32) => 2,
        Some(Scalar::F16) => 3,
        Some(Scalar::ABSTRACT_INT) | Some(Scalar::ABSTRACT_FLOAT) => 5,
        _ => 4,
    }
}

/// Adds the overloads that want a type of a rank, as many as are shown. Only those that want the shape that is given may count.
fn add_of_rank(
    alloc: Global,
    module: &Module,
    shown: &mut Vec<Rule>,
    rules: &[Rule],
    index: usize,
    shape: Option<&TypeInner>,
    rank: u32,
) -> Result<(), AllocError> {
    for rule in rules {
        if let Some(wanted) = wanted_type(module, rule, index) {
            let is_alike = match shape {
                Some(given) => has_shape(given, wanted),
                None => true,
            };
            if is_alike && rank_of(wanted) == rank && shown.len() < MOST_SHOWN {
                shown.push(rule.copy(alloc)?)?;
            }
        }
    }
    Ok(())
}

/// Returns the closest overloads: those that want the shape that is given, or else any.
fn closest_of(
    alloc: Global,
    module: &Module,
    rules: &[Rule],
    index: usize,
    given: &TypeInner,
) -> Result<Vec<Rule>, AllocError> {
    let mut shown = Vec::new(alloc);
    for rank in 0..RANKS {
        add_of_rank(alloc, module, &mut shown, rules, index, Some(given), rank)?;
    }
    if shown.is_empty() {
        for rank in 0..RANKS {
            add_of_rank(alloc, module, &mut shown, rules, index, None, rank)?;
        }
    }
    Ok(shown)
}

/// Returns what is at fault in a call, and the closest overloads.
fn fault_in(
    alloc: Global,
    module: &Module,
    function: MathFunction,
    arguments: &[TypeInner],
) -> Result<Option<AtFault>, AllocError>
    requires backward { IsBackward «module».now.types }
    requires in_range { All (PointsBelow (length «module».now.types)) arguments.now }
{
    let Some(index) = argument_at_fault(alloc, function, arguments, &module.types)? else {
        return Ok(None);
    };
    let Some(given) = arguments.get(index) else {
        return Ok(None);
    };
    let all = function
        .overloads(alloc)?
        .overload_list(alloc, module.to_ctx())?;
    let left = rules_left(alloc, module, function, arguments, index)?;
    let closest = closest_of(alloc, module, left.as_slice(), index, given)?;
    Ok(Some(AtFault {
        index,
        closest,
        left: left.len(),
        all: all.len(),
    }))
}

/// Returns what is at fault in a call of a built-in function with arguments of these types, if something is.
///
/// # Errors
///
/// `AllocError` if an allocation fails.
pub fn fault_of(
    alloc: Global,
    module: &Module,
    function: MathFunction,
    arguments: &[TypeInner],
) -> Result<Option<AtFault>, AllocError> {
    let types = &module.types;
    let is_in_range = arguments.iter().all(|argument| argument.is_in_range(types));
    if !is_in_range || !types_backward(types) {
        return Ok(None);
    }
    fault_in(alloc, module, function, arguments)
}
