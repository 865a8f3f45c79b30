//! The calls that pass facts to functions: those by entry points, and then those by functions from the last one back.
ghost use Rattle.std.specs.Prelude.{◌≡◌, ◌∷◌, ◌≤◌, ℕ, [], IfOk, IsTrue, OnOk, length};
ghost use Rattle.shader_uniformity.specs.Traces.{rules_at};
ghost use Rattle.shader_uniformity_needs.specs.Passes.{passes_at};
ghost use Rattle.shader_uniformity_causes.specs.Callers.{firsts_of, passed_to, Adds, AddsTo, AreCallers, AreFound, Finds, Notes};

use crate::causes::PassedBy;
use shader_ir::{Items, Module};
use shader_uniformity::{BodyLocation, Fact, Rule, holds, rules_at};
use shader_uniformity_needs::followers::followers;
use shader_uniformity_needs::{Pass, demands_at};
use std::alloc::{AllocError, Global};

/// Checks whether two facts with which a call may begin are the same.
fn is_same(fact: &Fact, other: &Fact) -> bool
    ensures { IsTrue result → fact.now ≡ other.now }
{
    match fact {
        Fact::Flow => match other {
            Fact::Flow => true,
            _ => false,
        },
        Fact::Argument(index) => match other {
            Fact::Argument(number) => index == number,
            _ => false,
        },
        Fact::Behind(index) => match other {
            Fact::Behind(number) => index == number,
            _ => false,
        },
        _ => false,
    }
}

/// Adds a call, unless another one passes the same fact.
fn add_pass(calls: &mut Vec<PassedBy>, by: &PassedBy) -> Result<(), AllocError>
    ensures { OnOk result (Adds by.now calls.old.items calls.new.items) }
{
    for other in calls.as_slice() {
        if is_same(&other.pass.beginning, &by.pass.beginning) {
            return Ok(());
        }
    }
    calls.push(*by)?;
    Ok(())
}

/// Adds a call to those of its function, if that is below a limit, unless another one passes the same fact.
fn add_pass_to(
    callers: &mut Vec<Vec<PassedBy>>,
    limit: usize,
    by: &PassedBy,
) -> Result<(), AllocError>
    requires { limit ≤ length callers.old.items }
    ensures { OnOk result (AddsTo limit by.now callers.old.items callers.new.items) }
{
    let function = by.pass.function.index();
    if function < limit {
        add_pass(&mut callers[function], by)?;
    }
    Ok(())
}

/// Notes what a call in the body at a place passes to one of the functions below a limit, if its cause is true.
fn note_pass(
    callers: &mut Vec<Vec<PassedBy>>,
    table: &[Option<u32>],
    place: BodyLocation,
    limit: usize,
    pass: &Pass,
) -> Result<(), AllocError>
    requires { limit ≤ length callers.old.items }
    ensures { OnOk result (Notes table.now place limit (pass.now ∷ []) callers.old.items callers.new.items) }
{
    if holds(table, &pass.cause) {
        let by = PassedBy {
            caller: place,
            pass: *pass,
        };
        add_pass_to(callers, limit, &by)?;
    }
    Ok(())
}

/// Notes what the calls in the body at a place pass to the functions below a limit.
fn note_passes(
    callers: &mut Vec<Vec<PassedBy>>,
    table: &[Option<u32>],
    place: BodyLocation,
    limit: usize,
    passes: &[Pass],
) -> Result<(), AllocError>
    requires { limit ≤ length callers.old.items }
    ensures { OnOk result (Notes table.now place limit passes.now callers.old.items callers.new.items) }
{
    for pass in passes {
        note_pass(callers, table, place, limit, pass)?;
    }
    Ok(())
}

/// Finds what the body at a place passes to the functions below a limit, where its calls begin with `Always` or with one of some other
/// facts.
fn find_in(
    alloc: Global,
    module: &Module,
    known: &[Items<Rule>],
    callers: &mut Vec<Vec<PassedBy>>,
    place: BodyLocation,
    limit: usize,
    firsts: &[Fact],
) -> Result<(), AllocError>
    requires { limit ≤ length callers.old.items }
    ensures { OnOk result (Finds (rules_at «module».now known.now place) (passes_at «module».now place)
        place limit firsts.now callers.old.items callers.new.items) }
{
    let rules = rules_at(alloc, module, known, place)?;
    let table = followers(alloc, rules, firsts)?;
    let demands = demands_at(alloc, module, place)?;
    note_passes(callers, &table, place, limit, &demands.passes)?;
    Ok(())
}

/// Finds what the entry points pass.
fn find_in_points(
    alloc: Global,
    module: &Module,
    known: &[Items<Rule>],
    callers: &mut Vec<Vec<PassedBy>>,
) -> Result<(), AllocError>
    requires { AreFound «module».now known.now (length «module».now.functions) 0 callers.old.items }
    ensures { OnOk result (AreFound «module».now known.now (length «module».now.functions) (length «module».now.entry_points)
        callers.new.items) }
{
    let count = module.entry_points.len();
    let limit = callers.len();
    for index in 0..count {
        let place = BodyLocation::EntryPoint(index);
        find_in(alloc, module, known, callers, place, limit, &[])?;
    }
    Ok(())
}

/// Returns the facts besides `Always` with which calls of a function begin.
fn firsts_of(alloc: Global, calls: &[PassedBy]) -> Result<Vec<Fact>, AllocError>
    ensures { IfOk result (λ firsts. firsts.items ≡ firsts_of calls.now) }
{
    let mut firsts = Vec::with_capacity(alloc, calls.len())?;
    for by in calls {
        firsts.push(by.pass.beginning)?;
    }
    Ok(firsts)
}

/// Finds what the functions pass, from the last one back. All that calls a function comes before it.
fn find_in_functions(
    alloc: Global,
    module: &Module,
    known: &[Items<Rule>],
    callers: &mut Vec<Vec<PassedBy>>,
) -> Result<(), AllocError>
    requires { AreFound «module».now known.now (length «module».now.functions) (length «module».now.entry_points) callers.old.items }
    ensures { OnOk result (AreFound «module».now known.now 0 (length «module».now.entry_points) callers.new.items) }
{
    let count = callers.len();
    for step in 0..count {
        let index = count - 1 - step;
        let firsts = firsts_of(alloc, callers[index].as_slice())?;
        let place = BodyLocation::Function(index);
        find_in(alloc, module, known, callers, place, index, &firsts)?;
    }
    Ok(())
}

/// Returns no calls, for each function.
fn no_callers(alloc: Global, functions: usize) -> Result<Vec<Vec<PassedBy>>, AllocError>
    ensures length { IfOk result (λ callers. length callers.items ≡ functions) }
    ensures empty { IfOk result (λ callers. (i : ℕ) → passed_to callers.items i ≡ []) }
{
    let mut callers = Vec::with_capacity(alloc, functions)?;
    for _ in 0..functions {
        callers.push(Vec::new(alloc))?;
    }
    Ok(callers)
}

/// Finds for each function the calls that pass it facts, where what passes them may be true: one for each fact, by the first entry point
/// with such a call, or else by the last function. Only calls by later functions and by entry points count.
///
/// `known` has the summaries that `find_divergence` returns.
///
/// # Errors
///
/// `AllocError` if memory runs out, or a function has 2^32 statements or implications.
#[tactic(auto, using(crate::proofs::CallerLemmas::found_none, crate::proofs::CallerLemmas::found_all))]
pub fn find_callers(
    alloc: Global,
    module: &Module,
    known: &[Items<Rule>],
) -> Result<Vec<Vec<PassedBy>>, AllocError>
    ensures { IfOk result (λ callers. AreCallers «module».now known.now callers.items) }
{
    let mut callers = no_callers(alloc, module.functions.len())?;
    find_in_points(alloc, module, known, &mut callers)?;
    find_in_functions(alloc, module, known, &mut callers)?;
    Ok(callers)
}
