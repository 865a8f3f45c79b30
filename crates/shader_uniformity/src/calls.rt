//! The implications of a call, from the summary of the called function.
ghost use Rattle.std.specs.Prelude.{◌≡◌, ◌++◌, OnOk, slice_get};
ghost use Rattle.std.specs.List.{flat_map};
ghost use Rattle.std.specs.Option.{option_copied, option_map};
ghost use Rattle.shader_uniformity.specs.Calls.{call_rules, cause_of, effect_rules, filled, gives_to, known_rules, leaves_to};
ghost use Rattle.shader_uniformity.specs.Calls.{passed_differs};
ghost use Rattle.shader_uniformity.specs.Calls.{passed_holds};

use crate::facts::{Fact, Place, Rule};
use crate::places::place_at;
use crate::rules::{add_rule, reads_at, writes_at};
use shader_arena::Handle;
use shader_ir::{Items, mark};
use std::alloc::AllocError;

/// A call that a statement makes.
#[derive(Clone, Copy)]
pub struct CallSite<'a> {
    pub places: &'a [Place],
    pub position: u32,
    pub around: Option<u32>,
    pub arguments: &'a [Handle<mark::Expression>],
    pub result: Option<Handle<mark::Expression>>,
}

fn argument_at(
    arguments: &[Handle<mark::Expression>],
    index: u32,
) -> Option<Handle<mark::Expression>>
    ensures { result ≡ slice_get arguments.now index }
{
    arguments.get(index as usize).copied()
}

/// Returns the caller's fact that makes this fact true when the called function begins.
pub fn cause_of(site: &CallSite<'_>, fact: &Fact) -> Fact
    ensures { result ≡ cause_of site.now.places.now site.now.position site.now.around site.now.arguments.now site.now.result fact.now }
{
    match fact {
        Fact::Flow => Fact::Apart(site.position),
        Fact::Argument(index) => match argument_at(site.arguments, *index) {
            Some(expression) => Fact::Differs(expression),
            None => Fact::Always,
        },
        Fact::Behind(index) => match argument_at(site.arguments, *index) {
            Some(expression) => Fact::Holds(
                place_at(site.places, expression),
                reads_at(site.position, site.around),
            ),
            None => Fact::Always,
        },
        _ => Fact::Always,
    }
}

/// Adds that the cause makes the result of the call non-uniform, if the call has a result.
fn add_gives(
    rules: &mut Vec<Rule>,
    cause: Fact,
    value: Option<Handle<mark::Expression>>,
) -> Result<(), AllocError>
    ensures { OnOk result (rules.new.items ≡ rules.old.items ++ gives_to cause value) }
{
    match value {
        Some(expression) => add_rule(rules, cause, Fact::Differs(expression)),
        None => Ok(()),
    }
}

/// Adds the effect of a fact that the cause makes true when the called function ends.
pub fn add_effect(
    rules: &mut Vec<Rule>,
    site: &CallSite<'_>,
    cause: Fact,
    fact: &Fact,
) -> Result<(), AllocError>
    ensures { OnOk result (rules.new.items ≡ rules.old.items
        ++ effect_rules site.now.places.now site.now.position site.now.around site.now.arguments.now site.now.result cause fact.now) }
{
    match fact {
        Fact::Must => add_rule(rules, cause, Fact::Must),
        Fact::Gives => add_gives(rules, cause, site.result),
        Fact::Left(index) => match argument_at(site.arguments, *index) {
            Some(expression) => {
                let moment = writes_at(site.position, site.around)?;
                let place = place_at(site.places, expression);
                add_rule(rules, cause, Fact::Holds(place, moment))
            }
            None => Ok(()),
        },
        _ => Ok(()),
    }
}

fn add_filled(rules: &mut Vec<Rule>, site: &CallSite<'_>, known: &[Rule]) -> Result<(), AllocError>
    ensures { OnOk result (rules.new.items ≡ rules.old.items
        ++ flat_map (filled site.now.places.now site.now.position site.now.around site.now.arguments.now site.now.result) known.now) }
{
    for rule in known {
        let cause = cause_of(site, &rule.cause);
        add_effect(rules, site, cause, &rule.effect)?;
    }
    Ok(())
}

/// Adds the summary of the called function, or a fault if it has none.
fn add_known(
    rules: &mut Vec<Rule>,
    site: &CallSite<'_>,
    callees: &[Items<Rule>],
    function: Handle<mark::Function>,
) -> Result<(), AllocError>
    ensures { OnOk result (rules.new.items ≡ rules.old.items
        ++ known_rules site.now.places.now site.now.position site.now.around site.now.arguments.now site.now.result
        (slice_get callees.now function)) }
{
    match callees.get(function.index()) {
        Some(known) => add_filled(rules, site, known.as_slice()),
        None => add_rule(rules, Fact::Always, Fact::Must),
    }
}

/// Adds the implications of a call.
pub fn add_call(
    rules: &mut Vec<Rule>,
    site: &CallSite<'_>,
    callees: &[Items<Rule>],
    function: Handle<mark::Function>,
) -> Result<(), AllocError>
    ensures { OnOk result (rules.new.items ≡ rules.old.items
        ++ call_rules site.now.places.now site.now.position site.now.around site.now.arguments.now site.now.result
        (slice_get callees.now function)) }
{
    add_gives(rules, Fact::Apart(site.position), site.result)?;
    add_known(rules, site, callees, function)
}
