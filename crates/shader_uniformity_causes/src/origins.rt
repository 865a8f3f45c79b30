//! The implications of a body that its calls give, and those of the callees' summaries that they come from.
ghost use Rattle.std.specs.Prelude.{◌≡◌, ◌++◌, [], IfOk, OnOk, slice_get, take};
ghost use Rattle.std.specs.List.{flat_map};
ghost use Rattle.std.specs.Option.{option_copied};
ghost use Rattle.shader_ir.specs.BodyOf.{cases_of, step_of};
ghost use Rattle.shader_uniformity.specs.Positions.{block_end, cases_end, step_end};
ghost use Rattle.shader_uniformity_causes.specs.Origins.{block_origins, cases_origins, function_origins, is_given, is_same_fact};
ghost use Rattle.shader_uniformity_causes.specs.Origins.{is_same_rule, origin, origins_at, origins_in, origins_of_function};
ghost use Rattle.shader_uniformity_causes.specs.Origins.{origins_of_point, own_origins, step_origins};

use shader_arena::Handle;
use shader_ir::{Block, Function, Items, Module, Statement, SwitchCase, mark};
use shader_uniformity::places::places;
use shader_uniformity::rules::{next, reads_at};
use shader_uniformity::{
    BodyLocation, CallSite, Fact, Place, Rule, add_effect, cause_of, cell, function_at, moment,
};
use std::alloc::{AllocError, Global};

/// What a call's implication comes from.
#[derive(Clone, Copy)]
pub struct Origin {
    /// The called function.
    pub function: Handle<mark::Function>,
    /// The implication of its summary, from a fact with which its call begins to one with which it ends.
    pub rule: Rule,
}

/// The context of a body's calls, in addition to its statements.
#[derive(Clone, Copy)]
struct Scope<'a> {
    places: &'a [Place],
    /// The summary of each function that may be called.
    callees: &'a [Items<Rule>],
    /// The implication that is looked for.
    rule: &'a Rule,
}

fn is_same_fact(fact: &Fact, other: &Fact) -> bool
    ensures { result ≡ is_same_fact fact.now other.now }
{
    (cell(fact) == cell(other)) & (moment(fact) == moment(other))
}

fn is_same_rule(rule: &Rule, other: &Rule) -> bool
    ensures { result ≡ is_same_rule rule.now other.now }
{
    is_same_fact(&rule.cause, &other.cause) & is_same_fact(&rule.effect, &other.effect)
}

/// Checks whether an implication of the called function's summary gives an implication at a call.
fn is_given(
    alloc: Global,
    site: &CallSite<'_>,
    rule: &Rule,
    known: &Rule,
) -> Result<bool, AllocError>
    ensures { IfOk result (λ given. given
        ≡ is_given site.now.places.now site.now.position site.now.around site.now.arguments.now site.now.result rule.now known.now) }
{
    let mut rules = Vec::new(alloc);
    let cause = cause_of(site, &known.cause);
    add_effect(&mut rules, site, cause, &known.effect)?;
    let given = rules
        .as_slice()
        .iter()
        .any(|other| is_same_rule(rule, other));
    Ok(given)
}

/// Adds an implication of the called function's summary, if it gives an implication at a call.
fn add_origin(
    alloc: Global,
    origins: &mut Vec<Origin>,
    site: &CallSite<'_>,
    rule: &Rule,
    function: Handle<mark::Function>,
    known: &Rule,
) -> Result<(), AllocError>
    ensures { OnOk result (origins.new.items ≡ origins.old.items
        ++ origin site.now.places.now site.now.position site.now.around site.now.arguments.now site.now.result rule.now
        function known.now) }
{
    if is_given(alloc, site, rule, known)? {
        origins.push(Origin {
            function,
            rule: *known,
        })?;
    }
    Ok(())
}

/// Adds the implications of the called function's summary that give an implication at a call.
fn add_known(
    alloc: Global,
    origins: &mut Vec<Origin>,
    site: &CallSite<'_>,
    rule: &Rule,
    function: Handle<mark::Function>,
    known: &[Rule],
) -> Result<(), AllocError>
    ensures { OnOk result (origins.new.items ≡ origins.old.items
        ++ flat_map (origin site.now.places.now site.now.position site.now.around site.now.arguments.now site.now.result rule.now
        function) known.now) }
{
    for implication in known {
        add_origin(alloc, origins, site, rule, function, implication)?;
    }
    Ok(())
}

/// Adds the implications of the called function's summary that give an implication at a call, if the function has a summary.
fn add_origins(
    alloc: Global,
    origins: &mut Vec<Origin>,
    scope: &Scope<'_>,
    site: &CallSite<'_>,
    function: Handle<mark::Function>,
) -> Result<(), AllocError>
    ensures { OnOk result (origins.new.items ≡ origins.old.items
        ++ origins_in site.now.places.now site.now.position site.now.around site.now.arguments.now site.now.result scope.now.rule.now
        function (slice_get scope.now.callees.now function)) }
{
    match scope.callees.get(function.index()) {
        Some(known) => add_known(alloc, origins, site, scope.rule, function, known.as_slice()),
        None => Ok(()),
    }
}

/// Adds the origins at a statement without blocks.
fn add_own(
    alloc: Global,
    origins: &mut Vec<Origin>,
    scope: &Scope<'_>,
    position: u32,
    around: Option<u32>,
    statement: &Statement,
) -> Result<(), AllocError>
    ensures { OnOk result (origins.new.items ≡ origins.old.items
        ++ own_origins scope.now.places.now scope.now.callees.now scope.now.rule.now position around (step_of statement.now)) }
{
    match statement {
        Statement::Call {
            function,
            arguments,
            result,
        } => {
            let site = CallSite {
                places: scope.places,
                position,
                around,
                arguments: arguments.as_slice(),
                result: *result,
            };
            add_origins(alloc, origins, scope, &site, *function)
        }
        _ => Ok(()),
    }
}

/// Adds the origins at the statements of a block from a position on. Returns the position after it.
#[cycle(walk)]
fn add_block(
    alloc: Global,
    origins: &mut Vec<Origin>,
    scope: &Scope<'_>,
    start: u32,
    around: Option<u32>,
    block: &Block,
) -> Result<u32, AllocError>
    ensures origins { OnOk result (origins.new.items ≡ origins.old.items
        ++ block_origins scope.now.places.now scope.now.callees.now scope.now.rule.now start around block.now) }
    ensures end { IfOk result (λ end. end ≡ block_end start block.now) }
{
    let mut position = start;
    for statement in &block.statements {
        position = add_statement(alloc, origins, scope, position, around, statement)?;
    }
    next(position)
}

/// Adds the origins at a statement. Returns the position after it.
#[cycle(walk)]
fn add_statement(
    alloc: Global,
    origins: &mut Vec<Origin>,
    scope: &Scope<'_>,
    position: u32,
    around: Option<u32>,
    statement: &Statement,
) -> Result<u32, AllocError>
    ensures origins { OnOk result (origins.new.items ≡ origins.old.items
        ++ step_origins scope.now.places.now scope.now.callees.now scope.now.rule.now position around (step_of statement.now)) }
    ensures end { IfOk result (λ end. end ≡ step_end position (step_of statement.now)) }
{
    match statement {
        Statement::Block(inner) => {
            let first = next(position)?;
            let behind = add_block(alloc, origins, scope, first, around, inner)?;
            Ok(behind)
        }
        Statement::If { accept, reject, .. } => {
            let first = next(position)?;
            let second = add_block(alloc, origins, scope, first, around, accept)?;
            let behind = add_block(alloc, origins, scope, second, around, reject)?;
            Ok(behind)
        }
        Statement::Switch { cases, .. } => {
            let together = next(position)?;
            let first = next(together)?;
            let behind = add_cases(alloc, origins, scope, first, around, cases)?;
            Ok(behind)
        }
        Statement::Loop {
            body,
            continuing,
            ..
        } => {
            let moment = Some(reads_at(position, around));
            let rounds = next(position)?;
            let first = next(rounds)?;
            let second = add_block(alloc, origins, scope, first, moment, body)?;
            let behind = add_block(alloc, origins, scope, second, moment, continuing)?;
            Ok(behind)
        }
        _ => {
            add_own(alloc, origins, scope, position, around, statement)?;
            next(position)
        }
    }
}

/// Adds the origins in the cases of a `Switch` from a position on. Returns the position after them.
#[cycle(walk)]
fn add_cases(
    alloc: Global,
    origins: &mut Vec<Origin>,
    scope: &Scope<'_>,
    first: u32,
    around: Option<u32>,
    cases: &[SwitchCase],
) -> Result<u32, AllocError>
    ensures origins { OnOk result (origins.new.items ≡ origins.old.items
        ++ cases_origins scope.now.places.now scope.now.callees.now scope.now.rule.now first around (cases_of cases.now)) }
    ensures end { IfOk result (λ end. end ≡ cases_end first (cases_of cases.now)) }
{
    let mut start = first;
    for case in cases {
        start = add_block(alloc, origins, scope, start, around, &case.body)?;
    }
    Ok(start)
}

/// Returns the origins of an implication in a function, where the callees have these summaries.
fn function_origins(
    alloc: Global,
    module: &Module,
    callees: &[Items<Rule>],
    function: &Function,
    rule: &Rule,
) -> Result<Vec<Origin>, AllocError>
    ensures { IfOk result (λ origins. origins.items ≡ function_origins «module».now rule.now callees.now function.now) }
{
    let places = places(alloc, module, &function.expressions)?;
    let scope = Scope {
        places: places.as_slice(),
        callees,
        rule,
    };
    let mut origins = Vec::new(alloc);
    add_block(alloc, &mut origins, &scope, 1, None, &function.body)?;
    Ok(origins)
}

/// Returns the summaries of the functions before one.
fn earlier(known: &[Items<Rule>], index: usize) -> &[Items<Rule>]
    ensures { result.now ≡ take index known.now }
{
    if index < known.len() {
        &known[..index]
    } else {
        known
    }
}

fn origins_of_function(
    alloc: Global,
    module: &Module,
    known: &[Items<Rule>],
    index: usize,
    rule: &Rule,
) -> Result<Vec<Origin>, AllocError>
    ensures { IfOk result (λ origins. origins.items
        ≡ origins_of_function «module».now known.now rule.now index (slice_get «module».now.functions index)) }
{
    match function_at(module, index) {
        Some(function) => function_origins(alloc, module, earlier(known, index), function, rule),
        None => Ok(Vec::new(alloc)),
    }
}

fn origins_of_point(
    alloc: Global,
    module: &Module,
    known: &[Items<Rule>],
    index: usize,
    rule: &Rule,
) -> Result<Vec<Origin>, AllocError>
    ensures { IfOk result (λ origins. origins.items
        ≡ origins_of_point «module».now known.now rule.now (slice_get «module».now.entry_points index)) }
{
    match module.entry_points.as_slice().get(index) {
        Some(point) => function_origins(alloc, module, known, &point.function, rule),
        None => Ok(Vec::new(alloc)),
    }
}

fn origins_at(
    alloc: Global,
    module: &Module,
    known: &[Items<Rule>],
    place: BodyLocation,
    rule: &Rule,
) -> Result<Vec<Origin>, AllocError>
    ensures { IfOk result (λ origins. origins.items ≡ origins_at «module».now known.now rule.now place) }
{
    match place {
        BodyLocation::Function(index) => origins_of_function(alloc, module, known, index, rule),
        BodyLocation::EntryPoint(index) => origins_of_point(alloc, module, known, index, rule),
    }
}

/// Returns what an implication of the function or entry point at a place comes from, if a call gives it: the first such call in the order
/// of the text, and the implication of the callee's summary. `trace` then tells why that one holds, in the called function.
///
/// `known` has the summaries that `find_divergence` returns.
///
/// # Errors
///
/// `AllocError` if memory runs out, or a function has 2^32 statements.
pub fn origin_of(
    alloc: Global,
    module: &Module,
    known: &[Items<Rule>],
    place: BodyLocation,
    rule: &Rule,
) -> Result<Option<Origin>, AllocError>
    ensures { IfOk result (λ origin. origin ≡ slice_get (origins_at «module».now known.now rule.now place) 0) }
{
    let origins = origins_at(alloc, module, known, place, rule)?;
    let first = origins.first().copied();
    Ok(first)
}
