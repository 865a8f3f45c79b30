//! One walk over the statements of a body, which adds their needs and what their calls pass, in the order of the text.
ghost use Rattle.std.specs.Prelude.{◌≡◌, ◌∷◌, ◌++◌, [], IfOk, OnOk, map, slice_get};
ghost use Rattle.std.specs.List.{flat_map};
ghost use Rattle.shader_arena.specs.Positions.{positions_between};
ghost use Rattle.shader_ir.specs.BodyOf.{cases_of, step_of};
ghost use Rattle.shader_uniformity.specs.Fault.{arguments_from};
ghost use Rattle.shader_uniformity.specs.Positions.{block_end, cases_end, step_end};
ghost use Rattle.shader_uniformity_needs.specs.Needs.{block_needs, cases_needs, emit_needs, if_severe, kind_needs, kind_of, need_at};
ghost use Rattle.shader_uniformity_needs.specs.Needs.{own_needs, sample_kind, step_needs};
ghost use Rattle.shader_uniformity_needs.specs.Passes.{block_passes, cases_passes, own_passes, pass, passes_to, step_passes};

use crate::needs::{Need, NeedKind, Pass};
use shader_arena::{Arena, Handle, Range};
use shader_ir::{
    Block, Expression, Function, FunctionArgument, SampleLevel, Statement, SwitchCase, mark,
};
use shader_uniformity::rules::{next, reads_at};
use shader_uniformity::{CallSite, Fact, Place, cause_of};
use std::alloc::AllocError;

/// The needs of a body, and what its calls pass.
#[derive(Drop)]
pub struct Demands {
    pub needs: Vec<Need>,
    pub passes: Vec<Pass>,
}

/// The context of a body's demands, in addition to its statements.
#[derive(Clone, Copy)]
pub struct Scope<'a> {
    pub functions: &'a Arena<Function, mark::Function>,
    pub expressions: &'a Arena<Expression, mark::Expression>,
    pub places: &'a [Place],
    /// True if non-uniform derivatives and implicit levels are errors under the diagnostic filters.
    pub severe: bool,
}

fn if_severe(severe: bool, kind: NeedKind) -> Option<NeedKind>
    ensures { result ≡ if_severe severe kind }
{
    if severe { Some(kind) } else { None }
}

/// Returns the kind of need of a sample with such a level, if it is computed from neighbouring invocations.
fn sample_kind(severe: bool, level: &SampleLevel) -> Option<NeedKind>
    ensures { result ≡ sample_kind severe level.now }
{
    match level {
        SampleLevel::Auto => if_severe(severe, NeedKind::ImplicitLevel),
        SampleLevel::Bias(_) => if_severe(severe, NeedKind::ImplicitLevel),
        _ => None,
    }
}

/// Returns why an expression needs uniform control flow, if it does.
fn kind_of(severe: bool, expression: &Expression) -> Option<NeedKind>
    ensures { result ≡ kind_of severe expression.now }
{
    match expression {
        Expression::Derivative { .. } => if_severe(severe, NeedKind::Derivative),
        Expression::ImageSample { level, .. } => sample_kind(severe, level),
        Expression::CooperativeLoad { .. } => Some(NeedKind::CooperativeOperation),
        Expression::CooperativeMultiplyAdd { .. } => Some(NeedKind::CooperativeOperation),
        _ => None,
    }
}

/// Adds what a statement needs itself.
fn add_need(
    needs: &mut Vec<Need>,
    position: u32,
    kind: NeedKind,
    violated_by: Fact,
) -> Result<(), AllocError>
    ensures { OnOk result (needs.new.items ≡ needs.old.items ++ need_at position None kind violated_by ∷ []) }
{
    needs.push(Need {
        position,
        expression: None,
        kind,
        violated_by,
    })?;
    Ok(())
}

fn add_kind(
    needs: &mut Vec<Need>,
    position: u32,
    expression: Handle<mark::Expression>,
    kind: Option<NeedKind>,
) -> Result<(), AllocError>
    ensures { OnOk result (needs.new.items ≡ needs.old.items ++ kind_needs position expression kind) }
{
    match kind {
        Some(kind) => {
            needs.push(Need {
                position,
                expression: Some(expression),
                kind,
                violated_by: Fact::Apart(position),
            })?;
            Ok(())
        }
        None => Ok(()),
    }
}

/// Adds what an emitted expression needs.
fn add_emitted(
    needs: &mut Vec<Need>,
    scope: &Scope<'_>,
    position: u32,
    handle: Handle<mark::Expression>,
) -> Result<(), AllocError>
    ensures { OnOk result (needs.new.items
        ≡ needs.old.items ++ emit_needs scope.now.expressions.now scope.now.severe position handle) }
{
    match scope.expressions.try_get(handle) {
        Some(expression) => add_kind(needs, position, handle, kind_of(scope.severe, expression)),
        None => Ok(()),
    }
}

/// Adds what the expressions of an `Emit` need.
fn add_emits(
    needs: &mut Vec<Need>,
    scope: &Scope<'_>,
    position: u32,
    range: &Range<mark::Expression>,
) -> Result<(), AllocError>
    ensures { OnOk result (needs.new.items ≡ needs.old.items
        ++ flat_map (emit_needs scope.now.expressions.now scope.now.severe position) (positions_between range.now.0 range.now.1)) }
{
    for handle in range.iter() {
        add_emitted(needs, scope, position, handle)?;
    }
    Ok(())
}

/// Adds what a call passes to a fact with which the called function may begin.
fn add_pass(
    passes: &mut Vec<Pass>,
    site: &CallSite<'_>,
    function: Handle<mark::Function>,
    beginning: Fact,
) -> Result<(), AllocError>
    ensures { OnOk result (passes.new.items ≡ passes.old.items
        ++ pass site.now.places.now site.now.position site.now.around site.now.arguments.now site.now.result function beginning ∷ []) }
{
    let cause = cause_of(site, &beginning);
    passes.push(Pass {
        function,
        cause,
        beginning,
    })?;
    Ok(())
}

/// Adds what a call passes for the arguments of the called function.
fn add_argument_passes(
    passes: &mut Vec<Pass>,
    site: &CallSite<'_>,
    function: Handle<mark::Function>,
    arguments: &[FunctionArgument],
) -> Result<(), AllocError>
    ensures { OnOk result (passes.new.items ≡ passes.old.items
        ++ map (pass site.now.places.now site.now.position site.now.around site.now.arguments.now site.now.result function)
        (arguments_from 0 arguments.now)) }
{
    let mut index = 0;
    for _argument in arguments {
        add_pass(passes, site, function, Fact::Argument(index))?;
        add_pass(passes, site, function, Fact::Behind(index))?;
        index = next(index)?;
    }
    Ok(())
}

/// Adds what a call passes to the called function, if there is one.
fn add_passes(
    passes: &mut Vec<Pass>,
    site: &CallSite<'_>,
    functions: &Arena<Function, mark::Function>,
    function: Handle<mark::Function>,
) -> Result<(), AllocError>
    ensures { OnOk result (passes.new.items ≡ passes.old.items
        ++ passes_to site.now.places.now site.now.position site.now.around site.now.arguments.now site.now.result function
        (slice_get functions.now function)) }
{
    match functions.try_get(function) {
        Some(called) => {
            add_pass(passes, site, function, Fact::Flow)?;
            add_argument_passes(passes, site, function, called.arguments.as_slice())
        }
        None => Ok(()),
    }
}

/// Adds the needs of a statement without blocks.
fn add_own_needs(
    needs: &mut Vec<Need>,
    scope: &Scope<'_>,
    position: u32,
    statement: &Statement,
) -> Result<(), AllocError>
    ensures { OnOk result (needs.new.items ≡ needs.old.items
        ++ own_needs scope.now.expressions.now scope.now.severe position (step_of statement.now)) }
{
    let apart = Fact::Apart(position);
    match statement {
        Statement::Emit(range) => add_emits(needs, scope, position, range),
        Statement::ControlBarrier(_) => add_need(needs, position, NeedKind::Barrier, apart),
        Statement::MemoryBarrier(_) => add_need(needs, position, NeedKind::MemoryBarrier, apart),
        Statement::WorkGroupUniformLoad { pointer, .. } => {
            add_need(needs, position, NeedKind::UniformLoad, apart)?;
            let differs = Fact::Differs(*pointer);
            add_need(needs, position, NeedKind::UniformLoad, differs)
        }
        Statement::CooperativeStore { .. } => {
            add_need(needs, position, NeedKind::CooperativeOperation, apart)
        }
        _ => Ok(()),
    }
}

/// Adds what a statement without blocks passes, if it is a call.
fn add_own_passes(
    passes: &mut Vec<Pass>,
    scope: &Scope<'_>,
    position: u32,
    around: Option<u32>,
    statement: &Statement,
) -> Result<(), AllocError>
    ensures { OnOk result (passes.new.items ≡ passes.old.items
        ++ own_passes scope.now.functions.now scope.now.places.now position around (step_of statement.now)) }
{
    match statement {
        Statement::Call {
            function,
            arguments,
            result,
        } => {
            let site = CallSite {
                places: scope.places,
                position,
                around,
                arguments: arguments.as_slice(),
                result: *result,
            };
            add_passes(passes, &site, scope.functions, *function)
        }
        _ => Ok(()),
    }
}

/// Adds the demands of the statements of a block from a position on. Returns the position after it.
#[cycle(walk)]
pub fn add_block(
    demands: &mut Demands,
    scope: &Scope<'_>,
    start: u32,
    around: Option<u32>,
    block: &Block,
) -> Result<u32, AllocError>
    ensures needs { OnOk result (demands.new.needs.items ≡ demands.old.needs.items
        ++ block_needs scope.now.expressions.now scope.now.severe start block.now) }
    ensures passes { OnOk result (demands.new.passes.items ≡ demands.old.passes.items
        ++ block_passes scope.now.functions.now scope.now.places.now start around block.now) }
    ensures end { IfOk result (λ end. end ≡ block_end start block.now) }
{
    let mut position = start;
    for statement in &block.statements {
        position = add_statement(demands, scope, position, around, statement)?;
    }
    next(position)
}

/// Adds the demands of a statement. Returns the position after it.
#[cycle(walk)]
fn add_statement(
    demands: &mut Demands,
    scope: &Scope<'_>,
    position: u32,
    around: Option<u32>,
    statement: &Statement,
) -> Result<u32, AllocError>
    ensures needs { OnOk result (demands.new.needs.items ≡ demands.old.needs.items
        ++ step_needs scope.now.expressions.now scope.now.severe position (step_of statement.now)) }
    ensures passes { OnOk result (demands.new.passes.items ≡ demands.old.passes.items
        ++ step_passes scope.now.functions.now scope.now.places.now position around (step_of statement.now)) }
    ensures end { IfOk result (λ end. end ≡ step_end position (step_of statement.now)) }
{
    match statement {
        Statement::Block(inner) => {
            let first = next(position)?;
            let behind = add_block(demands, scope, first, around, inner)?;
            Ok(behind)
        }
        Statement::If { accept, reject, .. } => {
            let first = next(position)?;
            let second = add_block(demands, scope, first, around, accept)?;
            let behind = add_block(demands, scope, second, around, reject)?;
            Ok(behind)
        }
        Statement::Switch { cases, .. } => {
            let together = next(position)?;
            let first = next(together)?;
            let behind = add_cases(demands, scope, first, around, cases)?;
            Ok(behind)
        }
        Statement::Loop {
            body,
            continuing,
            ..
        } => {
            let moment = Some(reads_at(position, around));
            let rounds = next(position)?;
            let first = next(rounds)?;
            let second = add_block(demands, scope, first, moment, body)?;
            let behind = add_block(demands, scope, second, moment, continuing)?;
            Ok(behind)
        }
        _ => {
            add_own_needs(&mut demands.needs, scope, position, statement)?;
            add_own_passes(&mut demands.passes, scope, position, around, statement)?;
            next(position)
        }
    }
}

/// Adds the demands of the cases of a `Switch` from a position on. Returns the position after them.
#[cycle(walk)]
fn add_cases(
    demands: &mut Demands,
    scope: &Scope<'_>,
    first: u32,
    around: Option<u32>,
    cases: &[SwitchCase],
) -> Result<u32, AllocError>
    ensures needs { OnOk result (demands.new.needs.items ≡ demands.old.needs.items
        ++ cases_needs scope.now.expressions.now scope.now.severe first (cases_of cases.now)) }
    ensures passes { OnOk result (demands.new.passes.items ≡ demands.old.passes.items
        ++ cases_passes scope.now.functions.now scope.now.places.now first around (cases_of cases.now)) }
    ensures end { IfOk result (λ end. end ≡ cases_end first (cases_of cases.now)) }
{
    let mut start = first;
    for case in cases {
        start = add_block(demands, scope, start, around, &case.body)?;
    }
    Ok(start)
}
