//! Comparison, conversion and layout of types.
ghost use Rattle.std.specs.Prelude.{length, All, IsTrue};
ghost use Rattle.shader_ir.specs.Key.{FitsTypes};
ghost use Rattle.shader_ir.specs.TypeTree.{IsBackward, PointsBelow};

use shader_arena::UniqueArena;
use shader_ir::proc::{Layouter, TypeResolution, compare_types, sizes_in_range, types_backward};
use shader_ir::{Module, Type, TypeInner, mark};
use std::alloc::{AllocError, Global};

/// Lays out all types of a module `rounds` times.
pub fn lay_out(alloc: Global, module: &Module, rounds: usize) -> Result<usize, AllocError> {
    let mut done = 0usize;
    for _ in 0..rounds {
        let ctx = module.to_ctx();
        let mut layouter = Layouter::new(alloc);
        if sizes_in_range(ctx) && layouter.update(ctx).is_ok() {
            done = done.wrapping_add(layouter.len());
        }
    }
    Ok(done)
}

/// Returns copies of the types, outside of their arena.
fn leaves(
    alloc: Global,
    types: &UniqueArena<Type, mark::Type>,
) -> Result<Vec<TypeInner>, AllocError> {
    let mut leaves = Vec::new(alloc);
    for (_, ty) in types.iter() {
        leaves.push(ty.inner.copy(alloc)?)?;
    }
    Ok(leaves)
}

/// Returns the types as resolutions outside the arena.
fn resolutions(
    alloc: Global,
    types: &UniqueArena<Type, mark::Type>,
) -> Result<Vec<TypeResolution>, AllocError> {
    let mut resolutions = Vec::new(alloc);
    for leaf in leaves(alloc, types)? {
        resolutions.push(TypeResolution::Value(leaf))?;
    }
    Ok(resolutions)
}

/// Returns whether all of them fit the types.
fn all_fit(leaves: &[TypeResolution], types: &UniqueArena<Type, mark::Type>) -> bool
    ensures { IsTrue result → All (λ leaf. FitsTypes types.now leaf) leaves.now }
{
    leaves.iter().all(|leaf| leaf.fits(types))
}

/// Compares `size` pairs of types, and returns how many are the same.
fn count_same(
    leaves: &[TypeResolution],
    types: &UniqueArena<Type, mark::Type>,
    size: usize,
) -> usize
    requires backward { IsBackward types.now }
    requires fit { All (λ leaf. FitsTypes types.now leaf) leaves.now }
{
    let mut same = 0usize;
    for position in 0..size {
        if leaves.is_empty() {
            return same;
        }
        let left = &leaves[position % leaves.len()];
        let right = &leaves[position / leaves.len() % leaves.len()];
        if compare_types(left, right, types) {
            same = same.wrapping_add(1);
        }
    }
    same
}

/// Compares pairs of a module's types, as types outside the arena, and returns how many are the same.
pub fn compare(
    alloc: Global,
    types: &UniqueArena<Type, mark::Type>,
    size: usize,
) -> Result<usize, AllocError> {
    let resolutions = resolutions(alloc, types)?;
    let leaves = resolutions.as_slice();
    if types_backward(types) && all_fit(leaves, types) {
        Ok(count_same(leaves, types, size))
    } else {
        Ok(0)
    }
}

/// Returns whether all of them name only types in range.
fn all_in_range(leaves: &[TypeInner], types: &UniqueArena<Type, mark::Type>) -> bool
    ensures { IsTrue result → All (λ leaf. PointsBelow (length types.now) leaf) leaves.now }
{
    leaves.iter().all(|leaf| leaf.is_in_range(types))
}

/// Converts pairs of types, and returns how many convert.
fn count_conversions(
    leaves: &[TypeInner],
    types: &UniqueArena<Type, mark::Type>,
    size: usize,
) -> usize
    requires backward { IsBackward types.now }
    requires in_range { All (λ leaf. PointsBelow (length types.now) leaf) leaves.now }
{
    let mut converted = 0usize;
    for position in 0..size {
        if leaves.is_empty() {
            return converted;
        }
        let left = &leaves[position % leaves.len()];
        let right = &leaves[position / leaves.len() % leaves.len()];
        if left.automatically_converts_to(right, types).is_some() {
            converted = converted.wrapping_add(1);
        }
    }
    converted
}

/// Converts pairs of a module's types, and returns how many convert.
pub fn convert(
    alloc: Global,
    types: &UniqueArena<Type, mark::Type>,
    size: usize,
) -> Result<usize, AllocError> {
    let copies = leaves(alloc, types)?;
    let leaves = copies.as_slice();
    if types_backward(types) && all_in_range(leaves, types) {
        Ok(count_conversions(leaves, types, size))
    } else {
        Ok(0)
    }
}
