//! Chains of causes, from a fact back to a source.
ghost use Rattle.std.specs.Prelude.{◌≡◌, ◌++◌, IfOk, OnOk};
ghost use Rattle.shader_uniformity.specs.Traces.{rules_at};
ghost use Rattle.shader_uniformity_causes.specs.Callers.{passed_at, AreCallers};
ghost use Rattle.shader_uniformity_causes.specs.Chains.{causes_at, AreCausesOf};
ghost use Rattle.shader_uniformity_causes.specs.Ways.{IsWayBack};

use crate::callers::find_callers;
use crate::causes::{Cause, PassedBy};
use crate::ways::{Way, way_back};
use shader_ir::{Items, Module};
use shader_uniformity::{BodyLocation, Fact, Rule, rules_at};
use std::alloc::{AllocError, Global};

/// Returns the calls that pass facts to the function at a place, none for an entry point.
fn passed_at(callers: &[Vec<PassedBy>], place: BodyLocation) -> &[PassedBy]
    ensures { result.now ≡ passed_at callers.now place }
{
    match place {
        BodyLocation::Function(index) => match callers.get(index) {
            Some(calls) => calls.as_slice(),
            None => &[],
        },
        BodyLocation::EntryPoint(_) => &[],
    }
}

/// Adds the implications of a trace in the body at a place.
fn add_causes(chain: &mut Vec<Cause>, place: BodyLocation, trace: &[Rule]) -> Result<(), AllocError>
    ensures { OnOk result (chain.new.items ≡ chain.old.items ++ causes_at place trace.now) }
{
    for rule in trace {
        chain.push(Cause { place, rule: *rule })?;
    }
    Ok(())
}

/// Returns the way back from a fact through the body at a place.
fn way_from(
    alloc: Global,
    module: &Module,
    known: &[Items<Rule>],
    callers: &[Vec<PassedBy>],
    place: BodyLocation,
    fact: &Fact,
) -> Result<Option<Way>, AllocError>
    ensures { IfOk result (IsWayBack (rules_at «module».now known.now place) (passed_at callers.now place) fact.now) }
{
    let rules = rules_at(alloc, module, known, place)?;
    let way = way_back(alloc, &rules, passed_at(callers, place), fact)?;
    Ok(way)
}

/// Returns why a fact may be true in a call of the function or entry point at a place: the implications by which it follows from a
/// source, from the fact back, through the function and then through callers. `None` if the fact is true in no call.
///
/// The way through each body is a shortest one. An implication that comes from the summary of a callee is one cause.
///
/// `known` has the summaries that `find_divergence` returns, and `callers` what `find_callers` returns.
///
/// # Errors
///
/// `AllocError` if memory runs out, or a function has 2^32 statements or implications.
pub fn causes_of(
    alloc: Global,
    module: &Module,
    known: &[Items<Rule>],
    callers: &[Vec<PassedBy>],
    place: BodyLocation,
    fact: &Fact,
) -> Result<Option<Vec<Cause>>, AllocError>
    requires { AreCallers «module».now known.now callers.now }
    ensures { IfOk result (AreCausesOf «module».now known.now place fact.now) }
{
    let mut chain = Vec::new(alloc);
    let mut body = place;
    let mut needed = *fact;
    for _ in 0..usize::MAX {
        match way_from(alloc, module, known, callers, body, &needed)? {
            Some(Way { trace, by }) => {
                add_causes(&mut chain, body, &trace)?;
                match by {
                    Some(by) => {
                        body = by.caller;
                        needed = by.pass.cause;
                    }
                    None => return Ok(Some(chain)),
                }
            }
            None => return Ok(None),
        }
    }
    Err(AllocError)
}

/// Returns why a fact may be true in a call of the function or entry point at a place, as `causes_of`, which is to be called where more
/// than one fact of a module is asked for.
///
/// # Errors
///
/// `AllocError` if memory runs out, or a function has 2^32 statements or implications.
pub fn find_causes(
    alloc: Global,
    module: &Module,
    known: &[Items<Rule>],
    place: BodyLocation,
    fact: &Fact,
) -> Result<Option<Vec<Cause>>, AllocError>
    ensures { IfOk result (AreCausesOf «module».now known.now place fact.now) }
{
    let callers = find_callers(alloc, module, known)?;
    let causes = causes_of(alloc, module, known, &callers, place, fact)?;
    Ok(causes)
}
