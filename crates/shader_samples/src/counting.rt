//! The sample of an expression that is an operand several times.
ghost use Rattle.std.specs.Prelude.{◌≡◌, [], ◌∷◌, IfOk};
ghost use Rattle.shader_ir.specs.declared.expression.Expression.TheVariants.{Binary, Compose};
ghost use Rattle.shader_ir.specs.declared.operators.BinaryOperator.TheVariants.{Add};
ghost use Rattle.shader_samples.specs.Samples.{counts_module};

use crate::builders::{at, function_of, module_of, number};
use shader_arena::Handle;
use shader_ir::{BinaryOperator, Expression, Items, Module, Scalar, TypeInner, VectorSize};
use std::alloc::{AllocError, Global};

fn doubled() -> Expression
    ensures { result ≡ Binary Add 0 0 }
{
    Expression::Binary {
        op: BinaryOperator::Add,
        left: at(0),
        right: at(0),
    }
}

fn tripled(alloc: Global) -> Result<Expression, AllocError>
    ensures { IfOk result (λ built. built ≡ Compose 0 (0 ∷ 0 ∷ 0 ∷ [])) }
{
    let components = vec![in alloc; at(0), at(0), at(0)]?;
    Ok(Expression::Compose {
        ty: Handle::from_index(0),
        components: Items::from(components),
    })
}

/// Builds a module with a literal that is an operand five times, and evaluates nothing. The expressions `7u`, `7u + 7u` and `vec3<u32>(7u,
/// 7u, 7u)` share the literal.
///
/// # Errors
///
/// `AllocError` if allocation fails.
pub fn counts(alloc: Global) -> Result<Module, AllocError>
    ensures { IfOk result (λ built. built ≡ counts_module) }
{
    let expressions = vec![in alloc; number(7), doubled(), tripled(alloc)?]?;
    let function = function_of(alloc, expressions, Vec::new(alloc))?;
    let ty = TypeInner::Vector {
        size: VectorSize::Tri,
        scalar: Scalar::U32,
    };
    let types = vec![in alloc; ty]?;
    let functions = vec![in alloc; function]?;
    module_of(alloc, types, Vec::new(alloc), functions)
}
