//! Tests of allocation failure: the result is out of memory, and the same call succeeds when it is repeated.
//!
//! With enough memory nothing fails. Under fault injection, where the allocator refuses the Nth request of a test's process, the test still
//! passes and prints a line with `was refused`. The first N at which no test prints one is beyond all requests.
ghost use Rattle.std.specs.Prelude.{◌≡◌};

mod stored;
mod tables;

use crate::tests::refusals::stored::resolve_stored;
use shader_arena::{Arena, Handle};
use shader_ir::proc::TypeResolution;
use shader_ir::{
    BinaryOperator, Expression, MathFunction, Module, Scalar, ScalarKind, TypeInner, VectorSize,
    mark,
};
use shader_resolve::{ResolveContext, ResolveError};
use std::alloc::Global;
use std::io::Print;
use std::process::Abort;
use std::test::Fail;

type Answer = Option<Result<TypeResolution, ResolveError>>;

fn at(position: u32) -> Handle<mark::Expression>
    ensures { result ≡ position }
{
    Handle::from_index(position)
}

/// Returns the result for an expression in a context, repeated if an allocation failed.
fn answer_in<R: Abort + Print>(
    rt: &R,
    context: &ResolveContext<'_>,
    alloc: Global,
    stored: &[TypeResolution],
    expr: &Expression,
) -> Result<Answer, Fail> {
    let first = resolve_stored(context, alloc, stored, expr);
    if !matches!(first, Some(Err(ResolveError::OutOfMemory))) {
        return Ok(first);
    }
    drop(first);
    println!(rt; "a type was refused")?;
    Ok(resolve_stored(context, alloc, stored, expr))
}

/// Returns the result for an expression in an empty module.
fn answer<R: Abort + Print>(
    rt: &R,
    alloc: Global,
    stored: [TypeResolution; 2],
    expr: Expression,
) -> Result<Answer, Fail> {
    let module = Module::new(alloc);
    let locals = Arena::new(alloc);
    let context = ResolveContext::with_locals(&module, &locals, &[]);
    let reported = answer_in(rt, &context, alloc, &stored, &expr);
    drop(stored);
    drop(expr);
    drop(locals);
    drop(module);
    reported
}

fn is_incompatible(answer: Answer, words: &str) -> bool {
    match answer {
        Some(Err(ResolveError::IncompatibleOperands(reported))) => reported.as_str() == words,
        _ => false,
    }
}

fn is_invalid(answer: Answer, words: &str) -> bool {
    match answer {
        Some(Err(ResolveError::BuiltinArgumentsInvalid(reported))) => reported.as_str() == words,
        _ => false,
    }
}

fn is_type(answer: Answer, wanted: TypeResolution) -> bool {
    let wanted = Some(Ok(wanted));
    let same = answer == wanted;
    drop(answer);
    drop(wanted);
    same
}

fn call(fun: MathFunction) -> Expression {
    Expression::Math {
        fun,
        arg: at(0),
        arg1: Some(at(1)),
        arg2: None,
        arg3: None,
    }
}

fn pair(scalar: Scalar) -> TypeResolution {
    TypeResolution::Value(TypeInner::Vector {
        size: VectorSize::Bi,
        scalar,
    })
}

/// Returns two operands that no operation accepts.
fn unlike() -> [TypeResolution; 2] {
    [
        pair(Scalar::F32),
        TypeResolution::Value(TypeInner::Sampler { comparison: false }),
    ]
}

#[test]
fn of_operations(rt: HostRuntime) -> Result<(), Fail> {
    let product = Expression::Binary {
        op: BinaryOperator::Multiply,
        left: at(0),
        right: at(1),
    };
    let reported = answer(&rt, rt.alloc(), unlike(), product)?;
    assert!(rt; is_incompatible(reported, "Multiply"));
    let less = Expression::Binary {
        op: BinaryOperator::Less,
        left: at(1),
        right: at(0),
    };
    let reported = answer(&rt, rt.alloc(), unlike(), less)?;
    assert!(rt; is_incompatible(reported, "Less"));
    let cast = Expression::As {
        expr: at(1),
        kind: ScalarKind::Sint,
        convert: None,
    };
    let reported = answer(&rt, rt.alloc(), unlike(), cast)?;
    assert!(rt; is_incompatible(reported, "As"));
    Ok(())
}

#[test]
fn of_builtins(rt: HostRuntime) -> Result<(), Fail> {
    let stored = [pair(Scalar::F32), pair(Scalar::F32)];
    let reported = answer(&rt, rt.alloc(), stored, call(MathFunction::Max))?;
    assert!(rt; is_type(reported, pair(Scalar::F32)));
    let stored = [pair(Scalar::F32), pair(Scalar::F32)];
    let reported = answer(&rt, rt.alloc(), stored, call(MathFunction::Cross))?;
    assert!(rt; is_invalid(reported, "Cross"));
    let stored = [pair(Scalar::F16), pair(Scalar::F16)];
    let reported = answer(&rt, rt.alloc(), stored, call(MathFunction::Refract))?;
    assert!(rt; is_type(reported, pair(Scalar::F16)));
    Ok(())
}
