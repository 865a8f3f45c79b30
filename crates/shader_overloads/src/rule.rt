//! Rules: the argument types of a built-in function and the type of its result.
//!
//! A rule is one overload of WGSL's tables of built-in functions, without template parameters. Its arguments are the types to which a
//! call's arguments are converted. Its conclusion is the type of the call: either given in full or, for `frexp` and `modf`, a struct that
//! the module must have declared (`SpecialTypes`), since the IR names structs only by handles.
ghost use Rattle.std.specs.Prelude.{◌≡◌, ◌⊎◌, IfOk, IsOk, IsTrue, OnErr, None, Some};
ghost use Rattle.shader_overloads.specs.Resolutions.{ConcludesNoMembers, resolution_of};
ghost use Rattle.shader_overloads.specs.Rules.{is_scalar_or_vector, vector_size};

use crate::ConstructorSize;
use shader_ir::proc::TypeResolution;
use shader_ir::{
    Items, MathFunction, PredeclaredType, Scalar, SpecialTypes, TypeInner, VectorSize,
};
use std::alloc::{AllocError, Global};
use thiserror::Error;

/// A rule of a built-in function.
#[derive(Debug, Drop)]
pub struct Rule {
    pub arguments: Items<TypeResolution>,
    pub conclusion: Conclusion,
}

/// The result type of a built-in function.
#[derive(Debug, Drop)]
pub enum Conclusion {
    /// A type that is given in full.
    Value(TypeInner),
    /// A type that the module declares for the built-in function, among its special types.
    Predeclared(PredeclaredType),
}

impl Conclusion {
    /// Returns the result type that the module declares for `Frexp` or `Modf` of a scalar or a vector.
    pub fn for_frexp_modf(
        function: MathFunction,
        size: ConstructorSize,
        scalar: Scalar,
    ) -> Conclusion
        requires function { (function ≡ MathFunction.Frexp) ⊎ (function ≡ MathFunction.Modf) }
        requires size { IsTrue (is_scalar_or_vector size) }
        ensures frexp { function ≡ MathFunction.Frexp → result
            ≡ Conclusion.Predeclared (PredeclaredType.FrexpResult (vector_size size) scalar) }
        ensures modf { function ≡ MathFunction.Modf → result
            ≡ Conclusion.Predeclared (PredeclaredType.ModfResult (vector_size size) scalar) }
    {
        let size = vector_size(size);
        Conclusion::Predeclared(match function {
            MathFunction::Frexp => PredeclaredType::FrexpResult { size, scalar },
            MathFunction::Modf => PredeclaredType::ModfResult { size, scalar },
            _ => unreachable!(),
        })
    }

    /// Returns the result's type in a module with these special types.
    ///
    /// # Errors
    ///
    /// `MissingSpecialType` if the module has not registered the type that the conclusion needs.
    pub fn into_resolution(
        self,
        special_types: &SpecialTypes,
    ) -> Result<TypeResolution, MissingSpecialType>
        ensures found { IfOk result (λ resolution. resolution_of special_types.now self ≡ Some resolution) }
        ensures missing { OnErr result (resolution_of special_types.now self ≡ None) }
    {
        match self {
            Conclusion::Value(inner) => Ok(TypeResolution::Value(inner)),
            Conclusion::Predeclared(predeclared) => {
                match special_types.predeclared_types.get(&predeclared) {
                    Some(handle) => Ok(TypeResolution::Handle(*handle)),
                    None => Err(MissingSpecialType),
                }
            }
        }
    }

    /// Returns an equal copy. Allocates only for the members of a struct.
    pub fn copy(&self, alloc: Global) -> Result<Conclusion, AllocError>
        ensures copy { IfOk result (λ conclusion. conclusion ≡ self.now) }
        ensures ok { ConcludesNoMembers self.now → IsOk result }
    {
        match self {
            Conclusion::Value(inner) => Ok(Conclusion::Value(inner.copy(alloc)?)),
            Conclusion::Predeclared(predeclared) => Ok(Conclusion::Predeclared(*predeclared)),
        }
    }
}

/// The error for a conclusion whose type the module has not registered.
#[derive(Debug, Drop, Error)]
#[error("Special type is not registered within the module")]
pub struct MissingSpecialType;

/// Returns the size of a vector, or `None` for a scalar.
pub fn vector_size(size: ConstructorSize) -> Option<VectorSize>
    ensures { result ≡ vector_size size }
{
    match size {
        ConstructorSize::Vector(size) => Some(size),
        _ => None,
    }
}

impl Rule {
    /// Returns an equal copy.
    pub fn copy(&self, alloc: Global) -> Result<Rule, AllocError>
        ensures { IfOk result (λ rule. rule ≡ self.now) }
    {
        let arguments = copy_arguments(alloc, self.arguments.as_slice())?;
        let conclusion = self.conclusion.copy(alloc)?;
        Ok(Rule {
            arguments,
            conclusion,
        })
    }
}

/// Returns equal copies of the arguments.
fn copy_arguments(
    alloc: Global,
    arguments: &[TypeResolution],
) -> Result<Items<TypeResolution>, AllocError>
    ensures { IfOk result (λ copies. copies ≡ arguments.now) }
{
    let mut copies = Vec::with_capacity(alloc, arguments.len())?;
    for argument in arguments {
        copies.push(argument.copy(alloc)?)?;
    }
    Ok(Items::from(copies))
}
