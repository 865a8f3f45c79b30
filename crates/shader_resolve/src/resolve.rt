//! Typing of expressions: the type of an expression, given the types of its operands.
//!
//! Each kind of expression has one typing rule (`specs/TypingRules.antt`). A rule reads the types of at most two operands, and either gives
//! a type or rejects the expression. `resolve` obtains the operands' types from the closure `past`; a caller that visits an arena in order
//! supplies the types resolved before. Nothing here is recursive over expressions.
//!
//! `resolve` is sound and complete with respect to the rules: unless `past` fails or, for the rules that allocate, memory runs out, it
//! returns a type exactly if the rule gives one, and then that type; if the rule rejects the expression, it returns the rule's error. Since
//! rules depend only on the keys of operand types (`shader_ir::proc::compare_types`), it makes no difference whether `past` returns a
//! handle or an equal value.
//!
//! The modules below follow the groups of rules: `leaves` reads no operands; `access`, `pointers`, `images` and `operations` read shapes of
//! types; `builtins` resolves overloads by `shader_overloads`.
mod access;
mod builtins;
mod images;
mod leaves;
mod operations;
mod pointers;
mod values;

use crate::{ResolveContext, ResolveError};
use access::{access, splat, swizzle};
use images::{gather, image_extent, sample};
use operations::{cast, component_test};
use shader_arena::Handle;
use shader_ir::proc::TypeResolution;
use shader_ir::{
    BinaryOperator, Expression, ImageQuery, MathFunction, RelationalFunction, Scalar, TypeInner,
    mark,
};
use std::alloc::Global;
use values::{copied, scalar_type};

type Resolved = Result<TypeResolution, ResolveError>;

impl<'a> ResolveContext<'a> {
    ghost use Rattle.std.specs.Prelude.{◌≡◌, ℕ, Option, length, Some, IfOk};
    ghost use Rattle.shader_ir.specs.Key.{Key, inner_of, FitsTypes, PointsInRange};
    ghost use Rattle.shader_ir.specs.TypeTree.{IsBackward, PointsBelow};
    ghost use Rattle.shader_resolve.specs.Context.{IsInRange, TypesInRange};
    ghost use Rattle.shader_resolve.specs.TypingRules.{math_rule, typing_rule};
    ghost use Rattle.shader_resolve.specs.DerivesByRule.{EachQueried, AnswerFits, AnswerInRange, DerivesByRule, IsAccessing};
    ghost use Rattle.shader_resolve.specs.DerivesByRule.{IsOfImage, IsOperation};
    ghost use Rattle.shader_resolve.specs.DerivesByRule.{memory_of};
    ghost use Rattle.shader_resolve.specs.Outcome.{ForRules};
    ghost use Rattle.shader_resolve.specs.Typing.{HasKey, AnswersHaveKeys, typing};

    /// Returns the type of an expression, given those of its operands by `past`. Only the operands that the typing rule reads are queried.
    ///
    /// # Errors
    ///
    /// The error of the typing rule; the first error that `past` returns; or out of memory, in place of an error that names an operation,
    /// for calls of built-in functions, which build their rules, and for a copy of an operand's type that is a struct outside the arena.
    pub fn resolve<F>(&self, alloc: Global, expr: &Expression, past: F) -> Resolved
    where
        F: Fn(Handle<mark::Expression>) -> Result<&'a TypeResolution, ResolveError>,
        requires backward { IsBackward self.now.types }
        requires in_range { IsInRange self.now expr.now }
        requires queried { EachQueried (F.pre past) (typing_rule self.now expr.now) }
        requires reported_in_range { EachQueried (λ operand. (reported : _) → F.post past operand reported →
            AnswerInRange self.now.types reported) (typing_rule self.now expr.now) }
        ensures follows { DerivesByRule (memory_of expr.now) (F.post past) result (typing_rule self.now expr.now) }
        ensures key { (keys : ℕ → Option Key) → AnswersHaveKeys self.now.types (F.post past) keys (typing_rule self.now expr.now) →
            HasKey self.now.types result (typing self.now keys expr.now) }
        ensures in_range { TypesInRange self.now → IfOk result (λ resolution. PointsInRange self.now.types resolution) }
        ensures fits { EachQueried (λ operand. (reported : _) → F.post past operand reported → AnswerFits self.now.types reported)
            (typing_rule self.now expr.now) → TypesInRange self.now → IfOk result (λ resolution. FitsTypes self.now.types resolution) }
    {
        self.resolve_by_rule(alloc, expr, past)
    }

    #[tactic(auto, using(crate::proofs::DerivationLemmas::plain_derives))]
    fn resolve_by_rule<F>(&self, alloc: Global, expr: &Expression, past: F) -> Resolved
    where
        F: Fn(Handle<mark::Expression>) -> Result<&'a TypeResolution, ResolveError>,
        requires backward { IsBackward self.now.types }
        requires in_range { IsInRange self.now expr.now }
        requires queried { EachQueried (F.pre past) (typing_rule self.now expr.now) }
        requires reported_in_range { EachQueried (λ operand. (reported : _) → F.post past operand reported →
            AnswerInRange self.now.types reported) (typing_rule self.now expr.now) }
        ensures { DerivesByRule (memory_of expr.now) (F.post past) result (typing_rule self.now expr.now) }
    {
        match expr {
            Expression::Access { .. }
            | Expression::AccessIndex { .. }
            | Expression::Splat { .. }
            | Expression::Swizzle { .. }
            | Expression::Load { .. }
            | Expression::CooperativeLoad { .. } => self.resolve_access(expr, past),
            Expression::ImageSample { .. }
            | Expression::ImageLoad { .. }
            | Expression::ImageQuery { .. } => self.resolve_image(expr, past),
            Expression::Unary { .. }
            | Expression::Binary { .. }
            | Expression::Select { .. }
            | Expression::Derivative { .. }
            | Expression::Relational { .. }
            | Expression::As { .. }
            | Expression::CooperativeMultiplyAdd { .. } => {
                self.resolve_operation(alloc, expr, past)
            }
            Expression::Math { fun, arg, arg1, .. } => self.resolve_math(
                alloc, *fun, *arg, *arg1, past,
            ),
            _ => match self.leaf_type(expr) {
                Some(resolved) => resolved,
                None => unreachable!(),
            },
        }
    }

    /// Resolves expressions that look into a type or through a pointer.
    fn resolve_access<F>(&self, expr: &Expression, past: F) -> Resolved
    where
        F: Fn(Handle<mark::Expression>) -> Result<&'a TypeResolution, ResolveError>,
        requires backward { IsBackward self.now.types }
        requires form { IsAccessing expr.now }
        requires queried { EachQueried (F.pre past) (typing_rule self.now expr.now) }
        requires reported_in_range { EachQueried (λ operand. (reported : _) → F.post past operand reported →
            AnswerInRange self.now.types reported) (typing_rule self.now expr.now) }
        ensures { DerivesByRule (memory_of expr.now) (F.post past) result (typing_rule self.now expr.now) }
    {
        match expr {
            Expression::Access { base, .. } => {
                access(self.types, *base, None, self.inner(past(*base)?))
            }
            Expression::AccessIndex { base, index } => {
                access(self.types, *base, Some(*index), self.inner(past(*base)?))
            }
            Expression::Splat { size, value } => splat(*size, *value, self.inner(past(*value)?)),
            Expression::Swizzle { size, vector, .. } => {
                swizzle(*size, *vector, self.inner(past(*vector)?))
            }
            Expression::Load { pointer } => self.load(*pointer, self.inner(past(*pointer)?)),
            Expression::CooperativeLoad {
                columns,
                rows,
                role,
                tile,
            } => self.load_tile(
                tile.pointer,
                *columns,
                *rows,
                *role,
                self.inner(past(tile.pointer)?),
            ),
            _ => unreachable!(),
        }
    }

    /// Resolves expressions that query an image.
    fn resolve_image<F>(&self, expr: &Expression, past: F) -> Resolved
    where
        F: Fn(Handle<mark::Expression>) -> Result<&'a TypeResolution, ResolveError>,
        requires backward { IsBackward self.now.types }
        requires form { IsOfImage expr.now }
        requires queried { EachQueried (F.pre past) (typing_rule self.now expr.now) }
        requires reported_in_range { EachQueried (λ operand. (reported : _) → F.post past operand reported →
            AnswerInRange self.now.types reported) (typing_rule self.now expr.now) }
        ensures { DerivesByRule (memory_of expr.now) (F.post past) result (typing_rule self.now expr.now) }
    {
        match expr {
            Expression::ImageSample {
                image,
                gather: Some(_),
                ..
            } => gather(*image, self.inner(past(*image)?)),
            Expression::ImageSample { image, .. } | Expression::ImageLoad { image, .. } => {
                sample(*image, self.inner(past(*image)?))
            }
            Expression::ImageQuery {
                image,
                query: ImageQuery::Size { .. },
            } => image_extent(*image, self.inner(past(*image)?)),
            Expression::ImageQuery { .. } => Ok(scalar_type(Scalar::U32)),
            _ => unreachable!(),
        }
    }

    /// Resolves expressions that compute with their operands.
    fn resolve_operation<F>(&self, alloc: Global, expr: &Expression, past: F) -> Resolved
    where
        F: Fn(Handle<mark::Expression>) -> Result<&'a TypeResolution, ResolveError>,
        requires backward { IsBackward self.now.types }
        requires form { IsOperation expr.now }
        requires queried { EachQueried (F.pre past) (typing_rule self.now expr.now) }
        requires reported_in_range { EachQueried (λ operand. (reported : _) → F.post past operand reported →
            AnswerInRange self.now.types reported) (typing_rule self.now expr.now) }
        ensures { DerivesByRule (memory_of expr.now) (F.post past) result (typing_rule self.now expr.now) }
    {
        match expr {
            Expression::Unary { expr: operand, .. }
            | Expression::Derivative { expr: operand, .. }
            | Expression::Select {
                accept: operand,
                ..
            }
            | Expression::CooperativeMultiplyAdd { c: operand, .. } => {
                copied(alloc, past(*operand)?)
            }
            Expression::Binary {
                op: BinaryOperator::Multiply,
                left,
                right,
            } => self.product(alloc, past(*left)?, past(*right)?),
            Expression::Binary { op, left, .. } => self.left_type(alloc, *op, past(*left)?),
            Expression::Relational {
                fun: RelationalFunction::All | RelationalFunction::Any,
                ..
            } => Ok(scalar_type(Scalar::BOOL)),
            Expression::Relational { fun, argument } => {
                component_test(alloc, fun, self.inner(past(*argument)?))
            }
            Expression::As {
                expr: operand,
                kind,
                convert,
            } => cast(alloc, *kind, *convert, self.inner(past(*operand)?)),
            _ => unreachable!(),
        }
    }

    /// Resolves a call of a built-in function, which queries its first argument and, if any, its second.
    fn resolve_math<F>(
        &self,
        alloc: Global,
        fun: MathFunction,
        arg: Handle<mark::Expression>,
        arg1: Option<Handle<mark::Expression>>,
        past: F,
    ) -> Resolved
    where
        F: Fn(Handle<mark::Expression>) -> Result<&'a TypeResolution, ResolveError>,
        requires backward { IsBackward self.now.types }
        requires queried { EachQueried (F.pre past) (math_rule self.now fun arg arg1) }
        requires reported_in_range { EachQueried (λ operand. (reported : _) → F.post past operand reported →
            AnswerInRange self.now.types reported) (math_rule self.now fun arg arg1) }
        ensures { DerivesByRule ForRules (F.post past) result (math_rule self.now fun arg arg1) }
    {
        match arg1 {
            None => self.math_of_one(alloc, fun, past(arg)?),
            Some(arg1) => self.math_of_two(alloc, fun, past(arg)?, past(arg1)?),
        }
    }

    /// Returns the shape of an operand's type.
    fn inner(&self, resolution: &'a TypeResolution) -> &'a TypeInner
        requires backward { IsBackward self.now.types }
        requires in_range { PointsInRange self.now.types resolution.now }
        ensures shape { inner_of self.now.types resolution.now ≡ Some result.now }
        ensures points_below { PointsBelow (length self.now.types) result.now }
    {
        resolution.inner_with(self.types)
    }
}
