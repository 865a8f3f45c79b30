//! A table of the types of a function's first expressions.
ghost use Rattle.std.specs.Prelude.{◌≡◌, ◌↔◌, ◌<◌, ◌≤◌, ◌+◌, [], All, Some, length, slice_get, take};
ghost use Rattle.std.specs.Prelude.{IfErr, IfOk, IsOkAnd, IsTrue, OnErr, OnOk};
ghost use Rattle.std.specs.Option.{option_and_then};
ghost use Rattle.shader_arena.specs.Positions.{most_items};
ghost use Rattle.shader_ir.specs.Key.{FitsTypes, HoldsNoMembers, inner_of};
ghost use Rattle.shader_ir.specs.TypeTree.{IsBackward, PointsBelow};
ghost use Rattle.shader_ir.specs.declared.proc.type_resolution.TypeResolution.{TypeResolution};
ghost use Rattle.shader_typifier.specs.Grown.{AreTyped, Grows, IsRefusedAs, IsRefusedNext, IsTyped};
ghost use Rattle.shader_typifier.specs.Registered.{IsMissing, IsRegistered, with_resolution};

use crate::TypifyError;
use crate::operands::operands_below;
use shader_arena::{Arena, Handle, UniqueArena};
use shader_ir::proc::TypeResolution;
use shader_ir::{Expression, Type, TypeInner, mark};
use shader_resolve::{ResolveContext, ResolveError};
use std::alloc::{AllocError, Global};
use std::marker::Model;
use std::ops::Index;

/// The types of the first expressions of a function, for a front end that builds the function and looks them up by handle.
#[derive(Drop)]
pub struct Typifier {
    resolutions: Vec<TypeResolution>,
}

impl Model for Typifier {
    ghost use Rattle.std.specs.Prelude.{List};
    ghost use Rattle.shader_ir.specs.declared.proc.type_resolution.TypeResolution.{TypeResolution};

    ghost Value = { List TypeResolution };

    ghost view = { λ typifier. typifier.resolutions.items };
}

impl Typifier {
    /// Returns an empty table. Allocates nothing.
    pub fn new(alloc: Global) -> Typifier
        ensures { result ≡ [] }
    {
        Typifier {
            resolutions: Vec::new(alloc),
        }
    }

    /// Removes all types, for the next function.
    pub fn reset(&mut self)
        ensures { self.new ≡ [] }
    {
        self.resolutions.clear();
    }

    /// Returns the number of expressions whose types are stored.
    pub fn len(&self) -> usize
        ensures { result ≡ length self.now }
    {
        self.resolutions.len()
    }

    /// Returns whether no types are stored.
    pub fn is_empty(&self) -> bool
        ensures { IsTrue result ↔ (self.now ≡ []) }
    {
        self.resolutions.is_empty()
    }

    /// Returns whether all stored types fit this arena, as `grow` requires: each handle is in range, and no type outside the arena is a
    /// struct.
    pub fn fits(&self, types: &UniqueArena<Type, mark::Type>) -> bool
        ensures { IsTrue result ↔ All (FitsTypes types.now) self.now }
    {
        self.resolutions
            .iter()
            .all(|resolution| resolution.fits(types))
    }

    /// Returns the shape of the type of an expression.
    pub fn get<'a>(
        &'a self,
        handle: Handle<mark::Expression>,
        types: &'a UniqueArena<Type, mark::Type>,
    ) -> &'a TypeInner
        requires there { handle < length self.now }
        requires fit { All (FitsTypes types.now) self.now }
        ensures shape { option_and_then (inner_of types.now) (slice_get self.now handle) ≡ Some result.now }
        ensures in_range { IsBackward types.now → PointsBelow (length types.now) result.now }
    {
        self.resolutions[handle.index()].inner_with(types)
    }

    /// Returns the type of the next expression.
    fn next_type(
        &self,
        alloc: Global,
        context: &ResolveContext<'_>,
        expression: &Expression,
    ) -> Result<TypeResolution, TypifyError>
        requires backward { IsBackward context.now.types }
        requires fit { All (FitsTypes context.now.types) self.now }
        ensures typed { IfOk result (IsTyped context.now self.now expression.now) }
        ensures refused { IfErr result (IsRefusedAs context.now self.now expression.now) }
    {
        if !context.names_in_range(expression) {
            return Err(TypifyError::HandleOutOfRange);
        }
        if !operands_below(expression, self.len()) {
            return Err(TypifyError::OperandNotEarlier);
        }
        let resolved = context.resolve(
            alloc,
            expression,
            |operand: Handle<mark::Expression>| -> Result<&TypeResolution, ResolveError>
                requires { operand < length self.now }
                ensures { IsOkAnd result (λ reported. slice_get self.entry.now operand ≡ Some reported.now) }
            { Ok(&self.resolutions[operand.index()]) },
        );
        let resolution = match resolved {
            Ok(resolution) => resolution,
            Err(failure) => return Err(TypifyError::Resolve(failure)),
        };
        if resolution.fits(context.types) {
            Ok(resolution)
        } else {
            Err(TypifyError::HandleOutOfRange)
        }
    }

    /// Resolves the types of the expressions up to and including `handle` that have none yet. The stored ones are unchanged.
    ///
    /// # Errors
    ///
    /// The reason why the first expression without a type has none. It is the one at position `len`, as the types before it are stored.
    pub fn grow(
        &mut self,
        alloc: Global,
        handle: Handle<mark::Expression>,
        expressions: &Arena<Expression, mark::Expression>,
        context: &ResolveContext<'_>,
    ) -> Result<(), TypifyError>
        requires backward { IsBackward context.now.types }
        requires fit { All (FitsTypes context.now.types) self.old }
        requires there { handle < length expressions.now }
        ensures grown { Grows context.now expressions.now self.old self.new }
        ensures typed { AreTyped context.now expressions.now (length self.old) self.new }
        ensures retained { take (length self.old) self.new ≡ self.old }
        ensures whole { OnOk result (handle < length self.new) }
        ensures no_more { length self.old ≤ handle → length self.new ≤ handle + 1 }
        ensures idle { handle < length self.old → self.new ≡ self.old }
        ensures queried { OnErr result (length self.old ≤ handle) }
        ensures refused { IfErr result (IsRefusedNext context.now expressions.now self.new) }
        ensures before { OnErr result (length self.new ≤ handle) }
        ensures fits { All (FitsTypes context.now.types) self.new }
    {
        for position in self.len()..handle.index() + 1 {
            let next = Handle::from_index(position as u32);
            let resolution = self.next_type(alloc, context, &expressions[next])?;
            match self.resolutions.push(resolution) {
                Ok(()) => {}
                Err(_) => return Err(TypifyError::Resolve(ResolveError::OutOfMemory)),
            }
        }
        Ok(())
    }

    /// Resolves the type of an expression again after a front end has replaced it: removes the types from `handle` on, which may depend on
    /// it, and grows the table up to and including it.
    ///
    /// # Errors
    ///
    /// The errors of `grow`.
    pub fn invalidate(
        &mut self,
        alloc: Global,
        handle: Handle<mark::Expression>,
        expressions: &Arena<Expression, mark::Expression>,
        context: &ResolveContext<'_>,
    ) -> Result<(), TypifyError>
        requires backward { IsBackward context.now.types }
        requires fit { All (FitsTypes context.now.types) self.old }
        requires there { handle < length expressions.now }
        ensures grown { Grows context.now expressions.now (take handle self.old) self.new }
        ensures typed { AreTyped context.now expressions.now handle self.new }
        ensures whole { OnOk result (handle < length self.new) }
        ensures no_more { length self.new ≤ handle + 1 }
        ensures refused { IfErr result (IsRefusedNext context.now expressions.now self.new) }
        ensures before { OnErr result (length self.new ≤ handle) }
        ensures fits { All (FitsTypes context.now.types) self.new }
    {
        self.resolutions.truncate(handle.index());
        self.grow(alloc, handle, expressions, context)
    }

    /// Returns the handle of an expression's type. A type outside the arena is inserted without a name unless it is there already; nothing
    /// else is added.
    ///
    /// # Errors
    ///
    /// `AllocError` if allocating the arena fails, which is then unchanged. A type that is there already allocates nothing.
    pub fn register_type(
        &self,
        alloc: Global,
        handle: Handle<mark::Expression>,
        types: &mut UniqueArena<Type, mark::Type>,
    ) -> Result<Handle<mark::Type>, AllocError>
        requires there { handle < length self.now }
        requires room { length types.old < most_items }
        ensures registered { IfOk result (λ ty. (resolution : TypeResolution) → slice_get self.now handle ≡ Some resolution →
            IsRegistered types.new resolution ty) }
        ensures added { OnOk result ((resolution : TypeResolution) → slice_get self.now handle ≡ Some resolution →
            types.new ≡ with_resolution types.old resolution) }
        ensures retained { take (length types.old) types.new ≡ types.old }
        ensures err { OnErr result (types.new ≡ types.old) }
        ensures needs_memory { OnErr result ((resolution : TypeResolution) → slice_get self.now handle ≡ Some resolution →
            HoldsNoMembers resolution →
            IsMissing types.old resolution) }
    {
        match &self[handle] {
            TypeResolution::Handle(ty) => Ok(*ty),
            TypeResolution::Value(inner) => {
                let inner = inner.copy(alloc)?;
                Ok(types.insert(Type { name: None, inner })?)
            }
        }
    }
}

impl Index<Handle<mark::Expression>> for Typifier {
    type Output = TypeResolution;

    ghost can_index = { λ typifier handle. handle < length typifier };

    ghost index_gives = { λ typifier handle resolution. slice_get typifier handle ≡ Some resolution };

    fn index(&self, handle: Handle<mark::Expression>) -> &TypeResolution {
        &self.resolutions[handle.index()]
    }
}
