//! The types of the expressions before a refused one.
ghost use Rattle.std.specs.Prelude.{All, IfOk};
ghost use Rattle.shader_ir.specs.Key.{FitsTypes};
ghost use Rattle.shader_ir.specs.TypeTree.{IsBackward};

use crate::shown::operand_text;
use report_names::{ItemKind, MOST_NESTED, number_text, type_text, unlisted_text};
use report_places::{BodyPlace, function_of};
use shader_arena::{Arena, Handle};
use shader_ir::proc::{TypeResolution, types_backward};
use shader_ir::{Expression, Function, Module, TypeInner, mark};
use shader_resolve::{ResolveContext, ResolveError};
use shader_typifier::{Typifier, TypifyError};
use std::alloc::{AllocError, Global};

/// A refused expression, and the types of those before it.
#[derive(Drop)]
pub struct Typed<'a> {
    pub module: &'a Module,
    pub place: BodyPlace,
    /// The function of the expression, or none of a global expression.
    pub function: Option<&'a Function>,
    pub handle: Handle<mark::Expression>,
    types: Typifier,
}

/// Returns the types of the first expressions, up to one or to the first that has none. They are computed again, as the analysis keeps no
/// types of a refused function.
fn types_before(
    alloc: Global,
    handle: Handle<mark::Expression>,
    expressions: &Arena<Expression, mark::Expression>,
    context: &ResolveContext<'_>,
) -> Result<Typifier, AllocError>
    ensures { IfOk result (λ types. All (FitsTypes context.now.types) types) }
{
    let mut types = Typifier::new(alloc);
    if !expressions.contains_handle(handle) || !types_backward(context.types) {
        return Ok(types);
    }
    match types.grow(alloc, handle, expressions, context) {
        Err(TypifyError::Resolve(ResolveError::OutOfMemory)) => Err(AllocError),
        _ => Ok(types),
    }
}

/// Returns the types of the first global expressions.
fn global_types(
    alloc: Global,
    module: &Module,
    handle: Handle<mark::Expression>,
) -> Result<Typifier, AllocError> {
    let locals = Arena::new(alloc);
    let context = ResolveContext::with_locals(module, &locals, &[]);
    types_before(alloc, handle, &module.global_expressions, &context)
}

/// Returns the types of the first expressions of a function.
fn function_types(
    alloc: Global,
    module: &Module,
    function: &Function,
    handle: Handle<mark::Expression>,
) -> Result<Typifier, AllocError> {
    let arguments = function.arguments.as_slice();
    let context = ResolveContext::with_locals(module, &function.local_variables, arguments);
    types_before(alloc, handle, &function.expressions, &context)
}

impl<'a> Typed<'a> {
    /// Returns a refused expression with the types before it.
    pub fn of(
        alloc: Global,
        module: &'a Module,
        place: &BodyPlace,
        handle: Handle<mark::Expression>,
    ) -> Result<Typed<'a>, AllocError> {
        let function = function_of(module, place);
        let types = match function {
            Some(function) => function_types(alloc, module, function, handle)?,
            None => global_types(alloc, module, handle)?,
        };
        Ok(Typed {
            module,
            place: *place,
            function,
            handle,
            types,
        })
    }

    /// Returns the refused expression.
    pub fn expression(&self) -> Option<&'a Expression> {
        match self.function {
            Some(function) => function.expressions.try_get(self.handle),
            None => self.module.global_expressions.try_get(self.handle),
        }
    }

    /// Returns the shape of an operand's type, if the type is known.
    pub fn inner(&self, operand: Handle<mark::Expression>) -> Option<&TypeInner> {
        let types = &self.module.types;
        if operand.index() < self.types.len() && self.types.fits(types) {
            Some(self.types.get(operand, types))
        } else {
            None
        }
    }

    /// Returns the type of an operand as WGSL spells it, if the type is known.
    pub fn type_text(
        &self,
        alloc: Global,
        operand: Handle<mark::Expression>,
    ) -> Result<Option<String>, AllocError> {
        if self.types.len() <= operand.index() {
            return Ok(None);
        }
        let text = match &self.types[operand] {
            TypeResolution::Handle(ty) => type_text(alloc, self.module, *ty, MOST_NESTED)?,
            TypeResolution::Value(inner) => {
                unlisted_text(alloc, self.module, inner, MOST_NESTED)?
            }
        };
        Ok(Some(text))
    }

    /// Returns an operand as a message names it.
    pub fn operand_text(
        &self,
        alloc: Global,
        operand: Handle<mark::Expression>,
    ) -> Result<String, AllocError> {
        match self.function {
            Some(function) => operand_text(alloc, self.module, function, operand),
            None => number_text(alloc, ItemKind::Expression, operand.index()),
        }
    }
}
