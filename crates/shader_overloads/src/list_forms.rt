//! The rules of the built-in functions whose overload sets are lists.
ghost use Rattle.std.specs.Prelude.{◌≡◌, ◌++◌, ◌∷◌, [], IfOk, OnOk};
ghost use Rattle.std.specs.List.{flat_map};
ghost use Rattle.shader_ir.specs.declared.proc.type_resolution.TypeResolution.TheVariants as resolutions;
ghost use Rattle.shader_overloads.specs.declared.rule.Conclusion.TheVariants.{Value};
ghost use Rattle.shader_overloads.specs.Builtins.{exponent_of, u32};
ghost use Rattle.shader_overloads.specs.ListForms.{rows};

use crate::utils::pairs;
use crate::{Conclusion, ConstructorSize, Rule};
use shader_ir::proc::TypeResolution;
use shader_ir::{Items, Scalar, ScalarKind, TypeInner};
use std::alloc::{AllocError, Global};

/// The number of rules of the longest list.
const MOST_RULES: usize = 36;

/// A built-in function whose overload set is a list.
#[derive(Clone, Copy)]
pub enum ListForm {
    /// `ldexp`: a float and an exponent, or vectors of both.
    Ldexp,
    /// The outer product: two vectors, with the matrix of all products as the result.
    Outer,
    /// `refract`: two vectors and a scalar.
    Refract,
    /// `transpose`: a matrix, with rows and columns exchanged in the result.
    Transpose,
    /// `extractBits`: an integer or a vector of integers, an offset and a count.
    ExtractBits,
    /// `insertBits`: two integers or vectors of integers, an offset and a count.
    InsertBits,
    /// `mix`: two floats or vectors and a third, or a scalar to mix vectors by.
    Mix,
}

/// Returns the rules of all combinations, grouped by scalar.
pub fn by_scalar(
    alloc: Global,
    form: ListForm,
    scalars: &[Scalar],
    sizes: &[ConstructorSize],
) -> Result<Vec<Rule>, AllocError>
    ensures { IfOk result (λ rules. rules.items ≡ flat_map (λ scalar. flat_map (λ size. rows form size scalar) sizes.now) scalars.now) }
{
    let mut rules = Vec::with_capacity(alloc, MOST_RULES)?;
    for (scalar, size) in pairs(scalars, sizes) {
        push_rules(alloc, &mut rules, form, size, scalar)?;
    }
    Ok(rules)
}

/// Returns the rules of all combinations, grouped by constructor.
pub fn by_size(
    alloc: Global,
    form: ListForm,
    sizes: &[ConstructorSize],
    scalars: &[Scalar],
) -> Result<Vec<Rule>, AllocError>
    ensures { IfOk result (λ rules. rules.items ≡ flat_map (λ size. flat_map (rows form size) scalars.now) sizes.now) }
{
    let mut rules = Vec::with_capacity(alloc, MOST_RULES)?;
    for (size, scalar) in pairs(sizes, scalars) {
        push_rules(alloc, &mut rules, form, size, scalar)?;
    }
    Ok(rules)
}

/// Appends the rules of one constructor and one scalar.
#[inline(always)]
fn push_rules(
    alloc: Global,
    rules: &mut Vec<Rule>,
    form: ListForm,
    size: ConstructorSize,
    scalar: Scalar,
) -> Result<(), AllocError>
    ensures { OnOk result (rules.new.items ≡ rules.old.items ++ rows form size scalar) }
{
    let ret = size.to_inner(scalar);
    let first = value(size.to_inner(scalar));
    match form {
        ListForm::Ldexp => {
            let exponent = value(size.to_inner(exponent_of(scalar)));
            push_rule(alloc, rules, [first, exponent], ret)
        }
        ListForm::Outer => push_outer(alloc, rules, size, scalar),
        ListForm::Refract => {
            let normal = value(size.to_inner(scalar));
            let ratio = value(TypeInner::Scalar(scalar));
            push_rule(alloc, rules, [first, normal, ratio], ret)
        }
        ListForm::Transpose => push_transpose(alloc, rules, size, scalar),
        ListForm::ExtractBits => { push_rule(alloc, rules, [first, unsigned(), unsigned()], ret) }
        ListForm::InsertBits => {
            let bits = value(size.to_inner(scalar));
            push_rule(alloc, rules, [first, bits, unsigned(), unsigned()], ret)
        }
        ListForm::Mix => push_mix(alloc, rules, size, scalar),
    }
}

/// Returns the scalar of the exponent of a float.
fn exponent_of(scalar: Scalar) -> Scalar
    ensures { result ≡ exponent_of scalar }
{
    match scalar.kind {
        ScalarKind::AbstractFloat => Scalar::ABSTRACT_INT,
        ScalarKind::Sint
        | ScalarKind::Uint
        | ScalarKind::Float
        | ScalarKind::Bool
        | ScalarKind::AbstractInt => Scalar::I32,
    }
}

fn push_outer(
    alloc: Global,
    rules: &mut Vec<Rule>,
    size: ConstructorSize,
    scalar: Scalar,
) -> Result<(), AllocError>
    ensures { OnOk result (rules.new.items ≡ rules.old.items ++ rows ListForm.Outer size scalar) }
{
    match size {
        ConstructorSize::Matrix { columns, rows } => {
            let left = TypeInner::Vector {
                size: columns,
                scalar,
            };
            let right = TypeInner::Vector { size: rows, scalar };
            let ret = TypeInner::Matrix {
                columns,
                rows,
                scalar,
            };
            push_rule(alloc, rules, [value(left), value(right)], ret)
        }
        ConstructorSize::Scalar => Ok(()),
        ConstructorSize::Vector(_) => Ok(()),
    }
}

fn push_transpose(
    alloc: Global,
    rules: &mut Vec<Rule>,
    size: ConstructorSize,
    scalar: Scalar,
) -> Result<(), AllocError>
    ensures { OnOk result (rules.new.items ≡ rules.old.items ++ rows ListForm.Transpose size scalar) }
{
    match size {
        ConstructorSize::Matrix { columns, rows } => {
            let input = TypeInner::Matrix {
                columns,
                rows,
                scalar,
            };
            let ret = TypeInner::Matrix {
                columns: rows,
                rows: columns,
                scalar,
            };
            push_rule(alloc, rules, [value(input)], ret)
        }
        ConstructorSize::Scalar => Ok(()),
        ConstructorSize::Vector(_) => Ok(()),
    }
}

fn push_mix(
    alloc: Global,
    rules: &mut Vec<Rule>,
    size: ConstructorSize,
    scalar: Scalar,
) -> Result<(), AllocError>
    ensures { OnOk result (rules.new.items ≡ rules.old.items ++ rows ListForm.Mix size scalar) }
{
    let left = value(size.to_inner(scalar));
    let right = value(size.to_inner(scalar));
    let ratio = value(size.to_inner(scalar));
    let ret = size.to_inner(scalar);
    push_rule(alloc, rules, [left, right, ratio], ret)?;
    let left = value(size.to_inner(scalar));
    let right = value(size.to_inner(scalar));
    let ratio = value(TypeInner::Scalar(scalar));
    let ret = size.to_inner(scalar);
    push_rule(alloc, rules, [left, right, ratio], ret)
}

#[inline(always)]
fn unsigned() -> TypeResolution
    ensures { result ≡ resolutions.Value (TypeInner.Scalar u32) }
{
    TypeResolution::Value(TypeInner::Scalar(Scalar::U32))
}

#[inline(always)]
fn value(inner: TypeInner) -> TypeResolution
    ensures { result ≡ resolutions.Value inner }
{
    TypeResolution::Value(inner)
}

/// Appends the rule with these arguments, which are moved into it.
#[inline(always)]
fn push_rule<const N: usize>(
    alloc: Global,
    rules: &mut Vec<Rule>,
    arguments: [TypeResolution; N],
    ret: TypeInner,
) -> Result<(), AllocError>
    ensures { OnOk result (rules.new.items ≡ rules.old.items ++ record { arguments = arguments.entry; conclusion = Value ret } ∷ []) }
{
    let arguments = Vec::from_array(alloc, arguments)?;
    rules.push(Rule {
        arguments: Items::from(arguments),
        conclusion: Conclusion::Value(ret),
    })?;
    Ok(())
}
