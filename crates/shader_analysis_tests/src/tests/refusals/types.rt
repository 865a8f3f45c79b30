//! Tests of the type of one expression over stored types: if an allocation fails, it is out of memory, and the repeated call has the
//! answer.
ghost use Rattle.std.specs.Prelude.{length};
ghost use Rattle.shader_resolve.specs.WellFormed.{OperandsBelow};

use crate::tests::refusals::say;
use shader_arena::Arena;
use shader_expression_types::type_of;
use shader_ir::proc::{TypeResolution, types_backward};
use shader_ir::{BinaryOperator, Expression, MathFunction, Module, Scalar, TypeInner, VectorSize};
use shader_resolve::{ResolveContext, ResolveError};
use shader_samples::builders::at;
use std::alloc::Global;
use std::io::Print;
use std::process::Abort;

/// The result of `type_of`, and `None` if the stored types or the names of the expression don't fit.
type Typed = Option<Result<TypeResolution, ResolveError>>;

/// Types an expression in a module without types, given the types of the expressions before it.
fn typed(alloc: Global, stored: &[TypeResolution], expression: &Expression) -> Typed
    requires { OperandsBelow (length stored.now) expression.now }
{
    let module = Module::new(alloc);
    let locals = Arena::new(alloc);
    let context = ResolveContext::with_locals(&module, &locals, &[]);
    let do_fit = stored.iter().all(|it| it.fits(&module.types));
    let typed = if do_fit && types_backward(&module.types) && context.names_in_range(expression) {
        Some(type_of(alloc, &context, stored, expression))
    } else {
        None
    };
    drop(locals);
    drop(module);
    typed
}

/// Types an operation on two stored types, again if an allocation failed.
fn typed_again(
    rt: &(impl Abort + Print),
    alloc: Global,
    stored: [TypeResolution; 2],
    expression: Expression,
) -> Typed
    requires { OperandsBelow 2 expression }
{
    let first = typed(alloc, &stored, &expression);
    let last = if matches!(first, Some(Err(ResolveError::OutOfMemory))) {
        say(rt, "the type of an expression");
        typed(alloc, &stored, &expression)
    } else {
        first
    };
    drop(stored);
    drop(expression);
    last
}

fn pair(scalar: Scalar) -> TypeResolution {
    TypeResolution::Value(TypeInner::Vector {
        size: VectorSize::Bi,
        scalar,
    })
}

fn call(fun: MathFunction) -> Expression
    ensures { OperandsBelow 2 result }
{
    Expression::Math {
        fun,
        arg: at(0),
        arg1: Some(at(1)),
        arg2: None,
        arg3: None,
    }
}

/// Types a call with two vectors of a scalar.
fn called(rt: &(impl Abort + Print), alloc: Global, fun: MathFunction, scalar: Scalar) -> Typed {
    typed_again(rt, alloc, [pair(scalar), pair(scalar)], call(fun))
}

#[test]
fn of_the_type_of_a_call(rt: HostRuntime) {
    let reported = called(&rt, rt.alloc(), MathFunction::Max, Scalar::F32);
    assert!(rt; reported == Some(Ok(pair(Scalar::F32))));
    drop(reported);
    let reported = called(&rt, rt.alloc(), MathFunction::Refract, Scalar::F16);
    assert!(rt; reported == Some(Ok(pair(Scalar::F16))));
    drop(reported);
    match called(&rt, rt.alloc(), MathFunction::Cross, Scalar::F32) {
        Some(Err(ResolveError::BuiltinArgumentsInvalid(name))) => {
            assert!(rt; name.as_str() == "Cross")
        }
        _ => assert!(rt; false),
    }
}

#[test]
fn of_the_type_of_a_product(rt: HostRuntime) {
    let sampler = TypeResolution::Value(TypeInner::Sampler { comparison: false });
    let product = Expression::Binary {
        op: BinaryOperator::Multiply,
        left: at(0),
        right: at(1),
    };
    match typed_again(&rt, rt.alloc(), [pair(Scalar::F32), sampler], product) {
        Some(Err(ResolveError::IncompatibleOperands(name))) => {
            assert!(rt; name.as_str() == "Multiply")
        }
        _ => assert!(rt; false),
    }
}
