//! The sample of an image and a sampler that are passed from call to call.
ghost use Rattle.std.specs.Prelude.{◌≡◌, [], ◌∷◌, IfOk};
ghost use Rattle.shader_ir.specs.Scalars.{scalar};
ghost use Rattle.shader_ir.specs.declared.scalar.ScalarKind.TheVariants as kinds;
ghost use Rattle.shader_ir.specs.declared.types.TypeInner.TheVariants.{Vector};
ghost use Rattle.shader_samples.specs.Samples.{calling_twice, image, sample_of, sampling_module, taking_both, taking_the_image};

use crate::builders::{argument, at, call, emit, function_of, global, module_of, resource};
use shader_arena::Handle;
use shader_ir::{
    Expression, Function, FunctionResult, ImageClass, ImageDimension, Items, Module, SampleLevel,
    Scalar, ScalarKind, Statement, TypeInner, VectorSize,
};
use std::alloc::{AllocError, Global};

fn image() -> TypeInner
    ensures { result ≡ image }
{
    TypeInner::Image {
        dim: ImageDimension::D2,
        arrayed: false,
        class: ImageClass::Sampled {
            kind: ScalarKind::Float,
            multi: false,
        },
    }
}

fn floats(size: VectorSize) -> TypeInner
    ensures { result ≡ Vector size (scalar kinds.Float 4) }
{
    TypeInner::Vector {
        size,
        scalar: Scalar::F32,
    }
}

/// Returns the expression `textureSampleLevel(e0, e1, e2, 0.0)`.
fn sample() -> Expression
    ensures { result ≡ sample_of }
{
    Expression::ImageSample {
        image: at(0),
        sampler: at(1),
        gather: None,
        coordinate: at(2),
        array_index: None,
        offset: None,
        level: SampleLevel::Zero,
        depth_ref: None,
        clamp_to_edge: false,
    }
}

/// Builds `fn f(t: texture_2d<f32>, s: sampler) -> vec4<f32> { return textureSampleLevel(t, s, vec2<f32>(), 0.0); }`.
fn taking_both(alloc: Global) -> Result<Function, AllocError>
    ensures { IfOk result (λ built. built ≡ taking_both) }
{
    let expressions = vec![in alloc;
        Expression::FunctionArgument(0),
        Expression::FunctionArgument(1),
        Expression::ZeroValue(Handle::from_index(2)),
        sample(),
    ]?;
    let value = Some(at(3));
    let statements = vec![in alloc; emit(3, 4), Statement::Return { value }]?;
    let taken = vec![in alloc; argument(0), argument(1)]?;
    let mut function = function_of(alloc, expressions, statements)?;
    function.arguments = Items::from(taken);
    function.result = Some(FunctionResult {
        ty: Handle::from_index(3),
        binding: None,
    });
    Ok(function)
}

/// Builds `fn g(t: texture_2d<f32>) { f(t, smp); }`.
fn taking_the_image(alloc: Global) -> Result<Function, AllocError>
    ensures { IfOk result (λ built. built ≡ taking_the_image) }
{
    let expressions = vec![in alloc; Expression::FunctionArgument(0), global(1)]?;
    let arguments = vec![in alloc; at(0), at(1)]?;
    let statements = vec![in alloc; call(0, arguments)]?;
    let taken = vec![in alloc; argument(0)]?;
    let mut function = function_of(alloc, expressions, statements)?;
    function.arguments = Items::from(taken);
    Ok(function)
}

/// Builds `fn h() { g(tex); g(tex); }`.
fn calling_twice(alloc: Global) -> Result<Function, AllocError>
    ensures { IfOk result (λ built. built ≡ calling_twice) }
{
    let first = call(1, vec![in alloc; at(0)]?);
    let second = call(1, vec![in alloc; at(0)]?);
    let expressions = vec![in alloc; global(0)]?;
    function_of(alloc, expressions, vec![in alloc; first, second]?)
}

/// Builds a module in which a function samples its two arguments, its caller passes a global for the sampler, and that one's caller passes
/// a global for the image:
///
/// ```wgsl
/// @group(0) @binding(0) var tex: texture_2d<f32>;
/// @group(0) @binding(1) var smp: sampler;
/// fn f(t: texture_2d<f32>, s: sampler) -> vec4<f32> { return textureSampleLevel(t, s, vec2<f32>(), 0.0); }
/// fn g(t: texture_2d<f32>) { f(t, smp); }
/// fn h() { g(tex); g(tex); }
/// ```
///
/// # Errors
///
/// `AllocError` if allocation fails.
pub fn sampling(alloc: Global) -> Result<Module, AllocError>
    ensures { IfOk result (λ built. built ≡ sampling_module) }
{
    let types = vec![in alloc;
        image(),
        TypeInner::Sampler { comparison: false },
        floats(VectorSize::Bi),
        floats(VectorSize::Quad),
    ]?;
    let globals = vec![in alloc; resource(0), resource(1)]?;
    module_of(alloc, types, globals, sampling_functions(alloc)?)
}

/// Builds the functions of `sampling`.
fn sampling_functions(alloc: Global) -> Result<Vec<Function>, AllocError>
    ensures { IfOk result (λ built. built.items ≡ taking_both ∷ taking_the_image ∷ calling_twice ∷ []) }
{
    let first = taking_both(alloc)?;
    let second = taking_the_image(alloc)?;
    let third = calling_twice(alloc)?;
    Ok(vec![in alloc; first, second, third]?)
}
