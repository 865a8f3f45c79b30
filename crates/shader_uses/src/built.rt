//! A module that is built by hand, as a front end builds it.
ghost use Rattle.std.specs.Prelude.{◌≡◌, [], ◌∷◌, All, IfOk, length};
ghost use Rattle.shader_uses.specs.Doubling.{Doubles};
ghost use Rattle.shader_uses.specs.Vertex.{unnamed};

use shader_typing::arena::{Handle, Range};
use shader_typing::ir::{
    BinaryOperator, Block, Expression, Function, FunctionArgument, FunctionResult, Items, Module,
    Scalar, Statement, Type, TypeInner, mark,
};
use std::alloc::{AllocError, Global};

/// Builds `fn double(a: u32) -> u32 { return a + a; }`, where `ty` is `u32`.
fn double(alloc: Global, ty: Handle<mark::Type>) -> Result<Function, AllocError>
    ensures { IfOk result (Doubles ty) }
{
    let mut function = Function::new(alloc);
    let argument = FunctionArgument {
        name: None,
        ty,
        binding: None,
    };
    function.arguments = Items::from(vec![in alloc; argument]?);
    function.result = Some(FunctionResult { ty, binding: None });
    let left = function
        .expressions
        .append(Expression::FunctionArgument(0))?;
    let op = BinaryOperator::Add;
    let right = left;
    let sum = Expression::Binary { op, left, right };
    let sum = function.expressions.append(sum)?;
    let end = Handle::from_index(function.expressions.len() as u32);
    let emit = Statement::Emit(Range::new(sum, end));
    let value = Some(sum);
    let statements = vec![in alloc; emit, Statement::Return { value }]?;
    function.body = Block { statements };
    Ok(function)
}

/// Builds a module of one function, `fn double(a: u32) -> u32 { return a + a; }`.
///
/// # Errors
///
/// `AllocError` if memory can't be allocated.
pub fn doubling_module(alloc: Global) -> Result<Module, AllocError>
    ensures types { IfOk result (λ built.
        built.types ≡ unnamed (TypeInner.Scalar Scalar.U32) ∷ []) }
    ensures functions { IfOk result (λ built.
        (length built.functions ≡ 1) × All (Doubles 0) built.functions) }
{
    let mut module = Module::new(alloc);
    let inner = TypeInner::Scalar(Scalar::U32);
    let ty = module.types.insert(Type { name: None, inner })?;
    let function = double(alloc, ty)?;
    module.functions.append(function)?;
    Ok(module)
}
