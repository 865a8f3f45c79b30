//! The overload sets of the built-in functions.
ghost use Rattle.std.specs.Prelude.{◌≡◌, ◌<◌, List, Bool, false, ℕ, IfOk, IsOk, not};
ghost use Rattle.shader_ir.specs.declared.types.«Type».{«Type»};
ghost use Rattle.shader_ir.specs.declared.types.TypeInner.{TypeInner};
ghost use Rattle.shader_overloads.specs.declared.rule.Rule.{Rule};
ghost use Rattle.shader_overloads.specs.Rules.{regular_rules};
ghost use Rattle.shader_overloads.specs.ScalarSets.{scalars_in};
ghost use Rattle.shader_overloads.specs.Builtins.{acceptance_of, rules_of, scalars_and_vectors};
ghost use Rattle.shader_overloads.specs.BuiltinGroups.{float_functions, geometric_functions, is_among, is_listed, matrix_functions};
ghost use Rattle.shader_overloads.specs.BuiltinGroups.{number_functions, packing_functions, rules_if, splitting_functions};
ghost use Rattle.shader_overloads.specs.AnySet.{rules_in, acceptance_in, is_regular};
ghost use Rattle.shader_overloads.specs.Remaining.{RulesFit};

use crate::{AnyOverloadSet, ConclusionRule, ConstructorSet, Regular, ScalarSet};
use shader_ir::MathFunction;
use std::alloc::{AllocError, Global};

mod lists;

/// Returns the rules on scalars and vectors whose conclusion is the type of their arguments.
#[tactic(auto, unfolding(crate::specs::Constructors::all_constructors))]
#[inline(always)]
fn component_wise(arity: usize, scalars: ScalarSet) -> Regular
    requires { 0 < arity }
    ensures { result ≡ regular_rules arity ConclusionRule.ArgumentType scalars_and_vectors (scalars_in scalars) }
{
    Regular::new(
        arity,
        ConstructorSet::SCALAR_OR_VECN,
        scalars,
        ConclusionRule::ArgumentType,
    )
}

/// Returns the set of a built-in function on floats, component by component.
#[tactic(auto, unfolding(crate::specs::Constructors::all_constructors, shader_ir::specs::Scalars::named_scalars))]
#[inline(always)]
fn float_set(function: MathFunction) -> Option<Regular>
    ensures { result ≡ rules_if (is_among float_functions function) function }
{
    use MathFunction as Mf;
    use ScalarSet as Ss;

    match function {
        Mf::Sin
        | Mf::Cos
        | Mf::Tan
        | Mf::Asin
        | Mf::Acos
        | Mf::Atan
        | Mf::Sinh
        | Mf::Cosh
        | Mf::Tanh
        | Mf::Asinh
        | Mf::Acosh
        | Mf::Atanh
        | Mf::Saturate
        | Mf::Radians
        | Mf::Degrees
        | Mf::Ceil
        | Mf::Floor
        | Mf::Round
        | Mf::Fract
        | Mf::Trunc
        | Mf::Exp
        | Mf::Exp2
        | Mf::Log
        | Mf::Log2
        | Mf::Sqrt
        | Mf::InverseSqrt => Some(component_wise(1, Ss::FLOAT)),
        Mf::Atan2 | Mf::Pow | Mf::Step => Some(component_wise(2, Ss::FLOAT)),
        Mf::Fma | Mf::SmoothStep => Some(component_wise(3, Ss::FLOAT)),
        Mf::QuantizeToF16 => Some(component_wise(1, Ss::F32)),
        _ => None,
    }
}

/// Returns the set of a built-in function on numbers or on integers, component by component.
#[tactic(auto, unfolding(crate::specs::Constructors::all_constructors, shader_ir::specs::Scalars::named_scalars))]
#[inline(always)]
fn number_set(function: MathFunction) -> Option<Regular>
    ensures { result ≡ rules_if (is_among number_functions function) function }
{
    use MathFunction as Mf;
    use ScalarSet as Ss;

    match function {
        Mf::Abs | Mf::Sign => Some(component_wise(1, Ss::NUMERIC)),
        Mf::Min | Mf::Max => Some(component_wise(2, Ss::NUMERIC)),
        Mf::Clamp => Some(component_wise(3, Ss::NUMERIC)),
        Mf::CountTrailingZeros
        | Mf::CountLeadingZeros
        | Mf::CountOneBits
        | Mf::ReverseBits
        | Mf::FirstTrailingBit
        | Mf::FirstLeadingBit => Some(component_wise(1, Ss::CONCRETE_INTEGER)),
        _ => None,
    }
}

/// Returns the set of a built-in function that packs numbers into a word or unpacks them.
#[tactic(auto, unfolding(crate::specs::Constructors::all_constructors, shader_ir::specs::Scalars::named_scalars))]
#[inline(always)]
fn packing_set(function: MathFunction) -> Option<Regular>
    ensures { result ≡ rules_if (is_among packing_functions function) function }
{
    use ConclusionRule as Cr;
    use ConstructorSet as Cs;
    use MathFunction as Mf;
    use ScalarSet as Ss;

    match function {
        Mf::Pack4x8snorm | Mf::Pack4x8unorm => Some(Regular::new(1, Cs::VEC4, Ss::F32, Cr::U32)),
        Mf::Pack2x16snorm | Mf::Pack2x16unorm | Mf::Pack2x16float => {
            Some(Regular::new(1, Cs::VEC2, Ss::F32, Cr::U32))
        }
        Mf::Pack4xI8 | Mf::Pack4xI8Clamp => Some(Regular::new(1, Cs::VEC4, Ss::I32, Cr::U32)),
        Mf::Pack4xU8 | Mf::Pack4xU8Clamp => Some(Regular::new(1, Cs::VEC4, Ss::U32, Cr::U32)),
        Mf::Unpack4x8snorm | Mf::Unpack4x8unorm => {
            Some(Regular::new(1, Cs::SCALAR, Ss::U32, Cr::Vec4F))
        }
        Mf::Unpack2x16snorm | Mf::Unpack2x16unorm | Mf::Unpack2x16float => {
            Some(Regular::new(1, Cs::SCALAR, Ss::U32, Cr::Vec2F))
        }
        Mf::Unpack4xI8 => Some(Regular::new(1, Cs::SCALAR, Ss::U32, Cr::Vec4I)),
        Mf::Unpack4xU8 => Some(Regular::new(1, Cs::SCALAR, Ss::U32, Cr::Vec4U)),
        Mf::Dot4I8Packed => Some(Regular::new(2, Cs::SCALAR, Ss::U32, Cr::I32)),
        Mf::Dot4U8Packed => Some(Regular::new(2, Cs::SCALAR, Ss::U32, Cr::U32)),
        _ => None,
    }
}

/// Returns the set of a built-in function for products, lengths and directions of vectors.
#[tactic(auto, unfolding(crate::specs::Constructors::all_constructors, shader_ir::specs::Scalars::named_scalars))]
#[inline(always)]
fn geometric_set(function: MathFunction) -> Option<Regular>
    ensures { result ≡ rules_if (is_among geometric_functions function) function }
{
    use ConclusionRule as Cr;
    use ConstructorSet as Cs;
    use MathFunction as Mf;
    use ScalarSet as Ss;

    match function {
        Mf::Dot => Some(Regular::new(2, Cs::VECN, Ss::NUMERIC, Cr::Scalar)),
        Mf::Cross => Some(Regular::new(2, Cs::VEC3, Ss::FLOAT, Cr::ArgumentType)),
        Mf::Distance => Some(Regular::new(2, Cs::SCALAR_OR_VECN, Ss::FLOAT, Cr::Scalar)),
        Mf::Length => Some(Regular::new(1, Cs::SCALAR_OR_VECN, Ss::FLOAT, Cr::Scalar)),
        Mf::Normalize => Some(Regular::new(1, Cs::VECN, Ss::FLOAT, Cr::ArgumentType)),
        Mf::FaceForward => Some(Regular::new(3, Cs::VECN, Ss::FLOAT, Cr::ArgumentType)),
        Mf::Reflect => Some(Regular::new(2, Cs::VECN, Ss::FLOAT, Cr::ArgumentType)),
        _ => None,
    }
}

/// Returns the set of a built-in function on square matrices.
#[tactic(auto, unfolding(crate::specs::Constructors::all_constructors, shader_ir::specs::Scalars::named_scalars))]
#[inline(always)]
fn matrix_set(function: MathFunction) -> Option<Regular>
    ensures { result ≡ rules_if (is_among matrix_functions function) function }
{
    use ConclusionRule as Cr;
    use ConstructorSet as Cs;
    use MathFunction as Mf;
    use ScalarSet as Ss;

    match function {
        Mf::Inverse => Some(Regular::new(1, Cs::SQUARE_MATRICES, Ss::FLOAT, Cr::ArgumentType)),
        Mf::Determinant => Some(Regular::new(1, Cs::SQUARE_MATRICES, Ss::FLOAT, Cr::Scalar)),
        _ => None,
    }
}

/// Returns the set of a built-in function that splits floats in two.
#[tactic(auto, unfolding(crate::specs::Constructors::all_constructors, shader_ir::specs::Scalars::named_scalars))]
#[inline(always)]
fn splitting_set(function: MathFunction) -> Option<Regular>
    ensures { result ≡ rules_if (is_among splitting_functions function) function }
{
    use ConclusionRule as Cr;
    use ConstructorSet as Cs;
    use MathFunction as Mf;
    use ScalarSet as Ss;

    match function {
        Mf::Modf => Some(Regular::new(1, Cs::SCALAR_OR_VECN, Ss::FLOAT, Cr::Modf)),
        Mf::Frexp => Some(Regular::new(1, Cs::SCALAR_OR_VECN, Ss::FLOAT, Cr::Frexp)),
        _ => None,
    }
}

/// Returns the set of a built-in function that has a rule for each combination of some constructors
/// and some scalars.
// Uses `match`, since closures of `or_else` are calls if several places build sets.
#[inline(always)]
fn regular_set(function: MathFunction) -> Option<Regular>
    ensures { result ≡ rules_if (not (is_listed function)) function }
{
    match float_set(function) {
        Some(set) => Some(set),
        None => match number_set(function) {
            Some(set) => Some(set),
            None => match packing_set(function) {
                Some(set) => Some(set),
                None => match geometric_set(function) {
                    Some(set) => Some(set),
                    None => match matrix_set(function) {
                        Some(set) => Some(set),
                        None => splitting_set(function),
                    },
                },
            },
        },
    }
}

/// The overload sets of built-in functions.
pub trait MathOverloads: Sized {
    /// Returns the candidate rules of a call of the built-in function. Allocates only for lists.
    fn overloads(self, alloc: Global) -> Result<AnyOverloadSet, AllocError>;
}

impl MathOverloads for MathFunction {
    #[inline(always)]
    fn overloads(self, alloc: Global) -> Result<AnyOverloadSet, AllocError>
        ensures rules { IfOk result (λ set. rules_in set ≡ rules_of self) }
        ensures kind { IfOk result (λ set. ◌≡◌ {A = List «Type» → ℕ → TypeInner → Rule → Bool} (acceptance_in set) (acceptance_of self)) }
        ensures regular { IfOk result (λ set. is_regular set ≡ not (is_listed self)) }
        ensures fits { IfOk result (λ set. (types : List «Type») → RulesFit types (rules_in set)) }
        ensures found { is_listed self ≡ false → IsOk result }
    {
        match regular_set(self) {
            Some(set) => Ok(AnyOverloadSet::Regular(set)),
            None => {
                let set = lists::listed_set(alloc, self)?;
                Ok(AnyOverloadSet::List(set))
            }
        }
    }
}
