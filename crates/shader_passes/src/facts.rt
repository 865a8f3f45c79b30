//! Facts about each expression, computed from those before it: a source that makes it non-uniform, what it needs of the flow, and the
//! global that it points into.
ghost use Rattle.std.specs.Prelude.{◌≡◌, length};
ghost use Rattle.shader_ir.specs.BodyOf.{step_of};
ghost use Rattle.shader_ir.specs.Operands.{expression_operands, statement_operands};
ghost use Rattle.shader_passes.specs.Records.{fact_of, facts_in, needs_in, origin_in, root_in};
ghost use Rattle.shader_passes.specs.Facts.{callee_of, callee_origin, entry, first_origin, form_needs, level_needs};
ghost use Rattle.shader_passes.specs.Facts.{needs_at, origin_at, own_needs, own_origin, own_root, result_origin_at, result_needs, root_at};

use crate::sources::is_source;
use bitflags::Flags;
use shader_arena::Handle;
use shader_info::{
    ExpressionInfo, FunctionInfo, NonUniformResult, Uniformity, UniformityRequirements,
};
use shader_ir::proc::{Label, TypeResolution, Visitor, visit_expression, visit_statement};
use shader_ir::{Expression, Function, Module, SampleLevel, Statement, mark};
use std::marker::Model;

/// The global that an expression points into, if any.
pub type Root = Option<Handle<mark::GlobalVariable>>;

/// The facts about the first expressions of a function: their records, and the globals that they point into.
#[derive(Drop)]
pub struct Facts<'a> {
    records: &'a [ExpressionInfo],
    roots: &'a [Root],
}

impl<'a> Model for Facts<'a> {
    ghost use Rattle.std.specs.Prelude.{◌≡◌, List, length};
    ghost use Rattle.shader_passes.specs.Facts.{Fact};
    ghost use Rattle.shader_passes.specs.Records.{facts_in};

    ghost Value = { List Fact };

    ghost view = { λ facts. facts_in facts.records.now facts.roots.now };

    ghost invariant = { λ facts. length facts.records.now ≡ length facts.roots.now };
}

/// Returns the origin that a record holds, if there is such a record.
#[inline(always)]
fn origin_in(records: &[ExpressionInfo], expression: Handle<mark::Expression>) -> NonUniformResult
    ensures { result ≡ origin_in records.now expression }
{
    match records.get(expression.index()) {
        Some(found) => found.uniformity.non_uniform_result,
        None => None,
    }
}

/// Returns the needs that a record holds, if there is such a record.
#[inline(always)]
fn requirements_in(
    records: &[ExpressionInfo],
    expression: Handle<mark::Expression>,
) -> UniformityRequirements
    ensures { result.0 ≡ needs_in records.now expression }
{
    match records.get(expression.index()) {
        Some(found) => found.uniformity.requirements,
        None => UniformityRequirements::empty(),
    }
}

/// Returns the root of an expression.
#[inline(always)]
pub(crate) fn root_in(roots: &[Root], expression: Handle<mark::Expression>) -> Root
    ensures { result ≡ root_in roots.now expression }
{
    match roots.get(expression.index()) {
        Some(root) => *root,
        None => None,
    }
}

impl<'a> Facts<'a> {
    /// Returns the facts of as many expressions as there are records and roots.
    #[inline(always)]
    pub fn new(records: &'a [ExpressionInfo], roots: &'a [Root]) -> Facts<'a>
        requires { length records.now ≡ length roots.now }
        ensures { result ≡ facts_in records.now roots.now }
    {
        Facts { records, roots }
    }

    /// Returns the origin of an earlier expression.
    #[inline(always)]
    pub fn origin_of(&self, expression: Handle<mark::Expression>) -> NonUniformResult
        ensures { result ≡ origin_at self.now expression }
    {
        origin_in(self.records, expression)
    }

    /// Returns the global that an earlier expression points into.
    #[inline(always)]
    pub fn root_of(&self, expression: Handle<mark::Expression>) -> Root
        ensures { result ≡ root_at self.now expression }
    {
        root_in(self.roots, expression)
    }

    /// Returns what an earlier expression needs of the flow.
    #[inline(always)]
    pub fn requirements_of(&self, expression: Handle<mark::Expression>) -> UniformityRequirements
        ensures { result.0 ≡ needs_at self.now expression }
    {
        requirements_in(self.records, expression)
    }
}

/// Finds the first origin among the operands that it visits.
#[derive(Drop)]
struct FirstOrigin<'a> {
    facts: &'a Facts<'a>,
    origin: NonUniformResult,
}

impl<'a> FirstOrigin<'a> {
    ghost use Rattle.std.specs.Option.{option_or};

    /// Returns the first origin, if any.
    fn found(&self) -> NonUniformResult
        ensures { result ≡ self.now.origin }
    {
        self.origin
    }
}

impl<'a> Visitor for FirstOrigin<'a> {
    ghost use Rattle.shader_passes.specs.FirstOrigin.{origin_after};

    ghost step = { origin_after };

    #[inline(always)]
    fn visit(&mut self, operand: Handle<mark::Expression>, _label: Label) {
        match self.origin {
            Some(_) => {}
            None => self.origin = self.facts.origin_of(operand),
        }
    }
}

/// Returns the first origin among the operands of an expression.
#[inline(always)]
#[tactic(auto, using(crate::proofs::RecordLemmas::finds_first))]
fn expression_origin(facts: &Facts<'_>, expression: &Expression) -> NonUniformResult
    ensures { result ≡ first_origin facts.now (expression_operands expression.now) }
{
    let mut first = FirstOrigin {
        facts,
        origin: None,
    };
    visit_expression(expression, &mut first);
    first.found()
}

/// Returns the first origin among the operands of a statement.
#[inline(always)]
#[tactic(auto, using(crate::proofs::RecordLemmas::finds_first))]
pub fn operands_origin(facts: &Facts<'_>, statement: &Statement) -> NonUniformResult
    ensures { result ≡ first_origin facts.now (statement_operands (step_of statement.now)) }
{
    let mut first = FirstOrigin {
        facts,
        origin: None,
    };
    visit_statement(statement, &mut first);
    first.found()
}

/// Returns the recorded origin of a function's result.
pub fn result_origin(infos: &[FunctionInfo], function: Handle<mark::Function>) -> NonUniformResult
    ensures { result ≡ result_origin_at infos.now function }
{
    match infos.get(function.index()) {
        Some(info) => info.uniformity.non_uniform_result,
        None => None,
    }
}

/// Returns what a function needs of the flow.
pub fn function_requirements(
    infos: &[FunctionInfo],
    function: Handle<mark::Function>,
) -> UniformityRequirements
    ensures { result.0 ≡ result_needs infos.now function }
{
    match infos.get(function.index()) {
        Some(info) => info.uniformity.requirements.known(),
        None => UniformityRequirements::empty(),
    }
}

/// Returns the function whose result the expression is.
#[inline(always)]
pub fn callee_of(expression: &Expression) -> Option<Handle<mark::Function>>
    ensures { result ≡ callee_of expression.now }
{
    match expression {
        Expression::CallResult(function) => Some(*function),
        _ => None,
    }
}

/// Returns the recorded origin of a callee's result.
#[inline(always)]
fn callee_origin(infos: &[FunctionInfo], callee: Option<Handle<mark::Function>>) -> NonUniformResult
    ensures { result ≡ callee_origin infos.now callee }
{
    match callee {
        Some(function) => result_origin(infos, function),
        None => None,
    }
}

/// Returns a source that makes the expression non-uniform: itself, the origin of its callee's result, or the first origin among its
/// operands.
#[inline(always)]
fn own_origin(
    module: &Module,
    infos: &[FunctionInfo],
    function: &Function,
    facts: &Facts<'_>,
    handle: Handle<mark::Expression>,
    expression: &Expression,
) -> NonUniformResult
    ensures { result ≡ own_origin «module».now infos.now function.now facts.now handle expression.now }
{
    if is_source(module, function, expression) {
        return Some(handle);
    }
    callee_origin(infos, callee_of(expression)).or(expression_origin(facts, expression))
}

/// Returns the global that the expression points into.
#[inline(always)]
pub fn own_root(facts: &Facts<'_>, expression: &Expression) -> Root
    ensures { result ≡ own_root facts.now expression.now }
{
    match expression {
        Expression::GlobalVariable(variable) => Some(*variable),
        Expression::Access { base, .. } | Expression::AccessIndex { base, .. } => {
            facts.root_of(*base)
        }
        _ => None,
    }
}

/// Returns what sampling at the level needs of the flow.
#[inline(always)]
fn level_needs(level: SampleLevel) -> UniformityRequirements
    ensures { result.0 ≡ level_needs level }
{
    match level {
        SampleLevel::Auto | SampleLevel::Bias(_) => UniformityRequirements::IMPLICIT_LEVEL,
        SampleLevel::Zero | SampleLevel::Exact(_) | SampleLevel::Gradient { .. } => {
            UniformityRequirements::empty()
        }
    }
}

/// Returns what the expression needs of the flow by its variant alone.
#[inline(always)]
fn form_needs(expression: &Expression) -> UniformityRequirements
    ensures { result.0 ≡ form_needs expression.now }
{
    match expression {
        Expression::ImageSample { level, .. } => level_needs(*level),
        Expression::Derivative { .. } => UniformityRequirements::DERIVATIVE,
        Expression::CooperativeLoad { .. } | Expression::CooperativeMultiplyAdd { .. } => {
            UniformityRequirements::COOP_OPS
        }
        _ => UniformityRequirements::empty(),
    }
}

/// Returns what the expression needs of the flow.
#[inline(always)]
fn own_needs(infos: &[FunctionInfo], expression: &Expression) -> UniformityRequirements
    ensures { result.0 ≡ own_needs infos.now expression.now }
{
    match callee_of(expression) {
        Some(function) => function_requirements(infos, function),
        None => form_needs(expression),
    }
}

/// Returns the record of an expression of this type before its occurrences are counted.
#[inline(always)]
pub fn record_of(
    module: &Module,
    infos: &[FunctionInfo],
    function: &Function,
    facts: &Facts<'_>,
    handle: Handle<mark::Expression>,
    expression: &Expression,
    ty: TypeResolution,
) -> ExpressionInfo
    ensures fact { fact_of result (own_root facts.now expression.now)
        ≡ entry «module».now infos.now function.now facts.now handle expression.now }
    ensures count { result.ref_count ≡ 0 }
    ensures ty { result.ty ≡ ty }
{
    ExpressionInfo {
        uniformity: Uniformity {
            non_uniform_result: own_origin(module, infos, function, facts, handle, expression),
            requirements: own_needs(infos, expression),
        },
        ref_count: 0,
        ty,
    }
}
