//! Tests of a table of types that grows over a literal, a vector of it and a sum: if a growth fails, the types stored are kept, and the
//! same call continues after them.
ghost use Rattle.std.specs.Prelude.{◌<◌, All, length};
ghost use Rattle.shader_ir.specs.Key.{FitsTypes};
ghost use Rattle.shader_ir.specs.TypeTree.{IsBackward};

use crate::tests::refusals::at;
use shader_arena::{Arena, Handle, UniqueArena};
use shader_ir::proc::{TypeResolution, types_backward};
use shader_ir::{
    BinaryOperator, Expression, Literal, Module, Scalar, Type, TypeInner, VectorSize, mark,
};
use shader_resolve::{ResolveContext, ResolveError};
use shader_typifier::{Typifier, TypifyError};
use std::alloc::Global;
use std::io::Print;
use std::process::Abort;

const OUT_OF_MEMORY: &str = "out of memory";

type Expressions = Arena<Expression, mark::Expression>;

/// Prints that an allocation failed, for fault injection.
fn say(rt: &impl Print, what: &str) {
    match println!(rt; "{what} was refused") {
        Ok(()) | Err(_) => {}
    }
}

/// Adds an expression at the end, repeated if an allocation failed.
fn add(rt: &(impl Abort + Print), expressions: &mut Expressions, expression: Expression) {
    assert!(rt; expressions.len() < 10);
    match expressions.append(expression) {
        Ok(_) => {}
        Err(failed) => {
            say(rt, "an expression");
            expressions.append(failed.value).expect(rt, OUT_OF_MEMORY);
        }
    }
}

fn expressions(rt: &(impl Abort + Print), alloc: Global) -> Expressions {
    let mut expressions = Arena::new(alloc);
    add(rt, &mut expressions, Expression::Literal(Literal::F32(0)));
    let (size, value) = (VectorSize::Tri, at(0));
    add(rt, &mut expressions, Expression::Splat { size, value });
    let sum = Expression::Binary {
        op: BinaryOperator::Add,
        left: at(1),
        right: at(1),
    };
    add(rt, &mut expressions, sum);
    expressions
}

/// Grows a table, repeated if an allocation failed.
fn grow(
    rt: &(impl Abort + Print),
    alloc: Global,
    typifier: &mut Typifier,
    handle: Handle<mark::Expression>,
    expressions: &Expressions,
    context: &ResolveContext<'_>,
) -> Result<(), TypifyError>
    requires backward { IsBackward context.now.types }
    requires fit { All (FitsTypes context.now.types) typifier.old }
    requires there { handle < length expressions.now }
    ensures { All (FitsTypes context.now.types) typifier.new }
{
    let before = typifier.len();
    let reported = typifier.grow(alloc, handle, expressions, context);
    if !matches!(
        reported,
        Err(TypifyError::Resolve(ResolveError::OutOfMemory))
    ) {
        return reported;
    }
    say(rt, "a type");
    assert!(rt; typifier.len() >= before);
    typifier.grow(alloc, handle, expressions, context)
}

/// Registers a type, repeated if an allocation failed.
fn register(
    rt: &(impl Abort + Print),
    alloc: Global,
    typifier: &Typifier,
    handle: Handle<mark::Expression>,
    types: &mut UniqueArena<Type, mark::Type>,
) -> Handle<mark::Type> {
    let before = types.len();
    assert!(rt; before < 10 && handle.index() < typifier.len());
    match typifier.register_type(alloc, handle, types) {
        Ok(ty) => ty,
        Err(_) => {
            say(rt, "a registered type");
            assert!(rt; types.len() == before);
            typifier
                .register_type(alloc, handle, types)
                .expect(rt, OUT_OF_MEMORY)
        }
    }
}

/// Returns whether a resolution is a vector of three floats.
fn is_vector(resolution: &TypeResolution) -> bool {
    matches!(
        resolution,
        TypeResolution::Value(TypeInner::Vector {
            size: VectorSize::Tri,
            scalar: Scalar::F32,
        })
    )
}

/// Asserts that a table contains a float and two vectors of it.
fn holds(rt: &impl Abort, typifier: &Typifier) {
    assert!(rt; typifier.len() == 3);
    assert!(rt;
        matches!(
            typifier[at(0)],
            TypeResolution::Value(TypeInner::Scalar(Scalar::F32))
        )
    );
    assert!(rt; is_vector(&typifier[at(1)]) && is_vector(&typifier[at(2)]));
}

/// Returns a table of the types of all expressions, which has grown over the first, over all, and anew from the first on.
fn grown(rt: &(impl Abort + Print), alloc: Global, expressions: &Expressions) -> Typifier {
    let module = Module::new(alloc);
    let locals = Arena::new(alloc);
    let context = ResolveContext::with_locals(&module, &locals, &[]);
    let mut typifier = Typifier::new(alloc);
    assert!(rt; types_backward(&module.types) && expressions.len() == 3);
    let reported = grow(rt, alloc, &mut typifier, at(0), expressions, &context);
    assert!(rt; reported.is_ok() && typifier.len() == 1);
    let reported = grow(rt, alloc, &mut typifier, at(2), expressions, &context);
    assert!(rt; reported.is_ok());
    holds(rt, &typifier);
    let reported = typifier.invalidate(alloc, at(0), expressions, &context);
    assert!(rt; reported.is_ok() && typifier.len() == 1);
    let reported = grow(rt, alloc, &mut typifier, at(2), expressions, &context);
    assert!(rt; reported.is_ok());
    drop(locals);
    drop(module);
    typifier
}

#[test]
fn of_grow(rt: HostRuntime) {
    let expressions = expressions(&rt, rt.alloc());
    let typifier = grown(&rt, rt.alloc(), &expressions);
    holds(&rt, &typifier);
    let mut types = UniqueArena::new(rt.alloc());
    for position in 0..3 {
        let ty = register(&rt, rt.alloc(), &typifier, at(position), &mut types);
        assert!(rt; ty.index() == if position == 0 { 0 } else { 1 });
    }
    assert!(rt; types.len() == 2);
}
