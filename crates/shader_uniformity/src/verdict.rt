//! The verdict on a module, given the summaries of its functions and the faults of its entry points.
ghost use Rattle.std.specs.Prelude.{◌≡◌};
ghost use Rattle.std.specs.List.{list_any};
ghost use Rattle.shader_uniformity.specs.Verdict.{faults_alone, is_fault_rule, point_from, verdict_from};

use crate::facts::{BodyLocation, Fact, Rule};
use shader_ir::Items;

/// Checks whether an implication makes each call a fault.
fn is_fault_rule(rule: &Rule) -> bool
    ensures { result ≡ is_fault_rule rule.now }
{
    match rule.cause {
        Fact::Always => match rule.effect {
            Fact::Must => true,
            _ => false,
        },
        _ => false,
    }
}

/// Checks whether a function with this summary is at fault whoever calls it.
fn faults_alone(known: &Items<Rule>) -> bool
    ensures { result ≡ faults_alone known.now }
{
    known.as_slice().iter().any(|rule| is_fault_rule(rule))
}

/// Returns the first entry point at fault.
fn point_verdict(faulty: &[bool]) -> Option<BodyLocation>
    ensures { result ≡ point_from 0 faulty.now }
{
    let mut index = 0;
    for fault in faulty {
        if *fault {
            return Some(BodyLocation::EntryPoint(index));
        }
        index += 1;
    }
    None
}

/// Returns the first function at fault, or else the first entry point.
pub fn verdict_of(known: &[Items<Rule>], faulty: &[bool]) -> Option<BodyLocation>
    ensures { result ≡ verdict_from 0 faulty.now known.now }
{
    let mut index = 0;
    for rules in known {
        if faults_alone(rules) {
            return Some(BodyLocation::Function(index));
        }
        index += 1;
    }
    point_verdict(faulty)
}
