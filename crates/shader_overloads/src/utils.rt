//! Helpers to build lists of rules, for this crate and for front ends.
ghost use Rattle.std.specs.Prelude.{⊤, ◌≡◌, ◌≤◌, IfOk, IsTrue, length, map};
ghost use Rattle.std.specs.List.{list_all};
ghost use Rattle.std.specs.Iterator.{YieldsFirst, item_count};
ghost use Rattle.shader_ir.specs.declared.proc.type_resolution.TypeResolution.TheVariants as resolutions;
ghost use Rattle.shader_ir.specs.Scalars.{floats};
ghost use Rattle.shader_overloads.specs.Builtins.{all_floats, rule, shapes};
ghost use Rattle.shader_overloads.specs.Remaining.{has_no_struct};

pub use crate::combinations::{PairsLeft, TriplesLeft, pairs, triples};
use crate::{Conclusion, ConstructorSize, List, Rule};
use shader_ir::proc::TypeResolution;
use shader_ir::{Items, Scalar, TypeInner, VectorSize};
use std::alloc::{AllocError, Global};
use std::marker::Model;

/// Returns the rule with arguments and a result of these types.
pub fn rule<const N: usize>(
    alloc: Global,
    args: &[TypeInner; N],
    ret: TypeInner,
) -> Result<Rule, AllocError>
    ensures { IfOk result (λ built. built ≡ rule args.now ret) }
{
    let arguments = values(alloc, args)?;
    Ok(Rule {
        arguments,
        conclusion: Conclusion::Value(ret),
    })
}

/// Returns the types as resolutions outside the arena.
#[tactic(auto, using(std::proofs::lemmas::List::map_more))]
fn values(alloc: Global, inners: &[TypeInner]) -> Result<Items<TypeResolution>, AllocError>
    ensures { IfOk result (λ values. values ≡ map resolutions.Value inners.now) }
{
    let mut arguments = Vec::with_capacity(alloc, inners.len())?;
    for inner in inners {
        arguments.push(TypeResolution::Value(inner.copy(alloc)?))?;
    }
    Ok(Items::from(arguments))
}

/// Returns a list of these rules.
pub fn list(alloc: Global, rules: Vec<Rule>) -> Result<List, AllocError>
    requires count { length rules.items ≤ 63 }
    requires no_struct { IsTrue (list_all has_no_struct rules.items) }
    ensures { IfOk result (λ set. set ≡ rules.items) }
{
    List::from_rules(alloc, rules)
}

/// The floating-point scalars, in the order in which calls prefer them: the abstract one, then the one of 32 bits.
pub static FLOAT_SCALARS: [Scalar; 4] = [
    Scalar::ABSTRACT_FLOAT,
    Scalar::F32,
    Scalar::F16,
    Scalar::F64,
];

/// The concrete floating-point scalars, in the order in which calls prefer them.
pub static CONCRETE_FLOAT_SCALARS: [Scalar; 3] = [Scalar::F32, Scalar::F16, Scalar::F64];

/// The constructors of a scalar itself and of its vectors.
pub static SCALAR_OR_VECN: [ConstructorSize; 4] = [
    ConstructorSize::Scalar,
    ConstructorSize::Vector(VectorSize::Bi),
    ConstructorSize::Vector(VectorSize::Tri),
    ConstructorSize::Vector(VectorSize::Quad),
];

/// Returns an iterator over the floating-point scalars, in the order in which calls prefer them.
pub fn float_scalars() -> FloatScalars
    ensures { result ≡ all_floats }
{
    FloatScalars {
        left: &FLOAT_SCALARS,
    }
}

/// Returns an iterator over the concrete floating-point scalars, in the order in which calls prefer them: for a built-in function whose
/// abstract form isn't implemented. No such function is left.
pub fn float_scalars_unimplemented_abstract() -> FloatScalars
    ensures { result ≡ floats }
{
    FloatScalars {
        left: &CONCRETE_FLOAT_SCALARS,
    }
}

/// Returns an iterator over the types of the scalar and of its vectors by size.
pub fn scalar_or_vecn(scalar: Scalar) -> ScalarOrVecn
    ensures { result ≡ shapes scalar }
{
    ScalarOrVecn {
        scalar,
        left: &SCALAR_OR_VECN,
    }
}

/// An iterator over the remaining floating-point scalars.
#[derive(Drop)]
pub struct FloatScalars {
    left: &'static [Scalar],
}

impl Model for FloatScalars {
    ghost use Rattle.std.specs.Prelude.{List};
    ghost use Rattle.shader_ir.specs.declared.scalar.Scalar.{Scalar};

    ghost Value = { List Scalar };

    ghost view = { λ scalars. scalars.left.now };
}

impl Clone for FloatScalars {
    ghost is_clone = { λ scalars copy. copy ≡ scalars };

    ghost is_infallible = { λ _. ⊤ };

    fn clone(&self) -> Result<FloatScalars, AllocError> {
        Ok(FloatScalars { left: self.left })
    }
}

impl Iterator for FloatScalars {
    type Item = Scalar;

    ghost next_gives = { YieldsFirst (λ scalars. scalars) };

    ghost remaining = { item_count (λ scalars. scalars) };

    fn next(&mut self) -> Option<Scalar> {
        let (first, others) = self.left.split_first()?;
        self.left = others;
        Some(*first)
    }
}

/// An iterator over the remaining types of a scalar and its vectors.
#[derive(Drop)]
pub struct ScalarOrVecn {
    scalar: Scalar,
    left: &'static [ConstructorSize],
}

impl Model for ScalarOrVecn {
    ghost use Rattle.std.specs.Prelude.{List, map};
    ghost use Rattle.shader_ir.specs.declared.types.TypeInner.{TypeInner};
    ghost use Rattle.shader_overloads.specs.Constructors.{to_inner};

    ghost Value = { List TypeInner };

    ghost view = { λ types. map (λ size. to_inner size types.scalar) types.left.now };
}

impl Iterator for ScalarOrVecn {
    type Item = TypeInner;

    ghost next_gives = { YieldsFirst (λ types. types) };

    ghost remaining = { item_count (λ types. types) };

    fn next(&mut self) -> Option<TypeInner> {
        let (size, others) = self.left.split_first()?;
        self.left = others;
        Some(size.to_inner(self.scalar))
    }
}
