//! The overload sets that are lists.
ghost use Rattle.std.specs.Prelude.{◌≡◌, IfOk, IsTrue};
ghost use Rattle.shader_overloads.specs.Builtins.{extract_bits_rules, insert_bits_rules, ldexp_rules, mix_rules};
ghost use Rattle.shader_overloads.specs.Builtins.{outer_rules, refract_rules, rules_of, transpose_rules};
ghost use Rattle.shader_overloads.specs.BuiltinGroups.{is_listed};

use crate::list_forms::{ListForm, by_scalar, by_size};
use crate::utils::{FLOAT_SCALARS, SCALAR_OR_VECN};
use crate::{ConstructorSize, list};
use shader_ir::{MathFunction, Scalar, VectorSize};
use std::alloc::{AllocError, Global};

/// Returns the list of a built-in function that has one.
#[inline(never)]
pub fn listed_set(alloc: Global, function: MathFunction) -> Result<list::List, AllocError>
    requires { IsTrue (is_listed function) }
    ensures { IfOk result (λ set. set ≡ rules_of function) }
{
    match function {
        MathFunction::Ldexp => ldexp(alloc),
        MathFunction::Outer => outer(alloc),
        MathFunction::Refract => refract(alloc),
        MathFunction::Transpose => transpose(alloc),
        MathFunction::ExtractBits => extract_bits(alloc),
        MathFunction::InsertBits => insert_bits(alloc),
        MathFunction::Mix => mix(alloc),
        _ => unreachable!(),
    }
}

static INTEGERS: [Scalar; 6] = [
    Scalar::I32,
    Scalar::U32,
    Scalar::I16,
    Scalar::U16,
    Scalar::I64,
    Scalar::U64,
];

static VECTORS: [ConstructorSize; 3] = [
    ConstructorSize::Vector(VectorSize::Bi),
    ConstructorSize::Vector(VectorSize::Tri),
    ConstructorSize::Vector(VectorSize::Quad),
];

static MATRICES: [ConstructorSize; 9] = [
    ConstructorSize::Matrix {
        columns: VectorSize::Bi,
        rows: VectorSize::Bi,
    },
    ConstructorSize::Matrix {
        columns: VectorSize::Bi,
        rows: VectorSize::Tri,
    },
    ConstructorSize::Matrix {
        columns: VectorSize::Bi,
        rows: VectorSize::Quad,
    },
    ConstructorSize::Matrix {
        columns: VectorSize::Tri,
        rows: VectorSize::Bi,
    },
    ConstructorSize::Matrix {
        columns: VectorSize::Tri,
        rows: VectorSize::Tri,
    },
    ConstructorSize::Matrix {
        columns: VectorSize::Tri,
        rows: VectorSize::Quad,
    },
    ConstructorSize::Matrix {
        columns: VectorSize::Quad,
        rows: VectorSize::Bi,
    },
    ConstructorSize::Matrix {
        columns: VectorSize::Quad,
        rows: VectorSize::Tri,
    },
    ConstructorSize::Matrix {
        columns: VectorSize::Quad,
        rows: VectorSize::Quad,
    },
];

/// Returns the rules of `ldexp`: a float with an integer exponent of its shape.
fn ldexp(alloc: Global) -> Result<list::List, AllocError>
    ensures { IfOk result (λ set. set ≡ ldexp_rules) }
{
    let rules = by_scalar(alloc, ListForm::Ldexp, &FLOAT_SCALARS, &SCALAR_OR_VECN)?;
    list::List::from_rules(alloc, rules)
}

/// Returns the rules of the outer product: two vectors, of the columns' size and of the rows'.
fn outer(alloc: Global) -> Result<list::List, AllocError>
    ensures { IfOk result (λ set. set ≡ outer_rules) }
{
    let rules = by_size(alloc, ListForm::Outer, &MATRICES, &FLOAT_SCALARS)?;
    list::List::from_rules(alloc, rules)
}

/// Returns the rules of `refract`: two vectors and a scalar.
fn refract(alloc: Global) -> Result<list::List, AllocError>
    ensures { IfOk result (λ set. set ≡ refract_rules) }
{
    let rules = by_size(alloc, ListForm::Refract, &VECTORS, &FLOAT_SCALARS)?;
    list::List::from_rules(alloc, rules)
}

/// Returns the rules of `transpose`: a matrix.
fn transpose(alloc: Global) -> Result<list::List, AllocError>
    ensures { IfOk result (λ set. set ≡ transpose_rules) }
{
    let rules = by_size(alloc, ListForm::Transpose, &MATRICES, &FLOAT_SCALARS)?;
    list::List::from_rules(alloc, rules)
}

/// Returns the rules of `extractBits`: integers, an offset and a count.
fn extract_bits(alloc: Global) -> Result<list::List, AllocError>
    ensures { IfOk result (λ set. set ≡ extract_bits_rules) }
{
    let rules = by_scalar(alloc, ListForm::ExtractBits, &INTEGERS, &SCALAR_OR_VECN)?;
    list::List::from_rules(alloc, rules)
}

/// Returns the rules of `insertBits`: integers, the same once more, an offset and a count.
fn insert_bits(alloc: Global) -> Result<list::List, AllocError>
    ensures { IfOk result (λ set. set ≡ insert_bits_rules) }
{
    let rules = by_scalar(alloc, ListForm::InsertBits, &INTEGERS, &SCALAR_OR_VECN)?;
    list::List::from_rules(alloc, rules)
}

/// Returns the rules of `mix`: two floats of one shape, and a third of that shape or a scalar.
fn mix(alloc: Global) -> Result<list::List, AllocError>
    ensures { IfOk result (λ set. set ≡ mix_rules) }
{
    let rules = by_scalar(alloc, ListForm::Mix, &FLOAT_SCALARS, &SCALAR_OR_VECN)?;
    list::List::from_rules(alloc, rules)
}
