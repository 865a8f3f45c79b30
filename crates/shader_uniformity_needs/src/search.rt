//! The search for violated needs, from the last body of a module back to the first one.
ghost use Rattle.std.specs.Prelude.{◌≡◌, IfOk, OnOk, length};
ghost use Rattle.shader_uniformity.specs.Traces.{rules_at};
ghost use Rattle.shader_uniformity_needs.specs.Needs.{needs_at};
ghost use Rattle.shader_uniformity_needs.specs.Passes.{passes_at};
ghost use Rattle.shader_uniformity_needs.specs.Search.{AreViolations, IsSearched, Searches};

use crate::followers::followers;
use crate::locations::demands_at;
use crate::needs::Violation;
use crate::notes::{add_violations, no_facts, note_all};
use shader_ir::{Items, Module};
use shader_uniformity::{BodyLocation, Fact, Rule, rules_at};
use std::alloc::{AllocError, Global};

/// A search for violated needs.
#[derive(Drop)]
pub struct Search {
    /// For each function that is left, the facts besides `Always` with which its calls may begin.
    pub begun: Vec<Vec<Fact>>,
    /// The violated needs, from the last one back.
    pub found: Vec<Violation>,
}

/// Searches the body at a place, whose calls begin with `Always` or with one of some other facts.
fn search_body(
    alloc: Global,
    module: &Module,
    known: &[Items<Rule>],
    search: &mut Search,
    place: BodyLocation,
    firsts: &[Fact],
) -> Result<(), AllocError>
    ensures { OnOk result (Searches (rules_at «module».now known.now place) (needs_at «module».now place) (passes_at «module».now place)
        place firsts.now search.old search.new) }
{
    let rules = rules_at(alloc, module, known, place)?;
    let table = followers(alloc, rules, firsts)?;
    let mut demands = demands_at(alloc, module, place)?;
    demands.needs.reverse();
    add_violations(&mut search.found, place, &table, &demands.needs)?;
    note_all(&mut search.begun, &table, &demands.passes)?;
    Ok(())
}

/// Searches the entry points, from the last one back. No call passes them anything.
fn search_points(
    alloc: Global,
    module: &Module,
    known: &[Items<Rule>],
    search: &mut Search,
) -> Result<(), AllocError>
    requires { IsSearched «module».now known.now (length search.old.begun.items) (length «module».now.entry_points) search.old }
    ensures { OnOk result (IsSearched «module».now known.now (length search.new.begun.items) 0 search.new) }
{
    let count = module.entry_points.len();
    for step in 0..count {
        let place = BodyLocation::EntryPoint(count - 1 - step);
        search_body(alloc, module, known, search, place, &[])?;
    }
    Ok(())
}

/// Searches the functions that are left, from the last one back. All that calls one of them has been searched before it.
fn search_functions(
    alloc: Global,
    module: &Module,
    known: &[Items<Rule>],
    search: &mut Search,
) -> Result<(), AllocError>
    requires { IsSearched «module».now known.now (length search.old.begun.items) 0 search.old }
    ensures { OnOk result (AreViolations «module».now known.now search.new.found.items) }
{
    while let Some(firsts) = search.begun.pop() {
        let place = BodyLocation::Function(search.begun.len());
        search_body(alloc, module, known, search, place, &firsts)?;
    }
    Ok(())
}

/// Returns the search before the first body.
fn begin(alloc: Global, module: &Module, known: &[Items<Rule>]) -> Result<Search, AllocError>
    ensures { IfOk result (λ search. IsSearched «module».now known.now (length search.begun.items)
        (length «module».now.entry_points) search) }
{
    Ok(Search {
        begun: no_facts(alloc, module.functions.len())?,
        found: Vec::new(alloc),
    })
}

/// Finds each violated need of a module: a statement or expression that needs uniform control flow (WGSL, "Uniformity") and that only
/// some of the invocations may reach, or a uniform load to which they may pass different pointers.
///
/// The needs of functions come first, then those of entry points, each in the order of the module, and in a body in the order of the
/// text. `known` has the summaries that `find_divergence` returns. A call of a function that isn't an earlier one passes nothing to it.
///
/// # Errors
///
/// `AllocError` if memory runs out, or a function has 2^32 statements or implications.
pub fn find_violations(
    alloc: Global,
    module: &Module,
    known: &[Items<Rule>],
) -> Result<Vec<Violation>, AllocError>
    ensures { IfOk result (λ found. AreViolations «module».now known.now found.items) }
{
    let mut search = begin(alloc, module, known)?;
    search_points(alloc, module, known, &mut search)?;
    search_functions(alloc, module, known, &mut search)?;
    let Search { mut found, .. } = search;
    found.reverse();
    Ok(found)
}
