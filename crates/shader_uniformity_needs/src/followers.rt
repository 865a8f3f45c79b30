//! The facts that follow from one of several facts.
ghost use Rattle.std.specs.Prelude.{◌≡◌, ◌++◌, IfOk, OnOk, map};
ghost use Rattle.shader_uniformity.specs.Marks.{leads};
ghost use Rattle.shader_uniformity_needs.specs.Notes.{HasFollowers};

use shader_uniformity::reach::reach;
use shader_uniformity::rules::add_rule;
use shader_uniformity::{Fact, Rule};
use std::alloc::{AllocError, Global};

/// Adds that each of some facts is true in each call.
fn add_firsts(rules: &mut Vec<Rule>, firsts: &[Fact]) -> Result<(), AllocError>
    ensures { OnOk result (rules.new.items ≡ rules.old.items ++ map (leads Fact.Always) firsts.now) }
{
    for first in firsts {
        add_rule(rules, Fact::Always, *first)?;
    }
    Ok(())
}

/// Returns the table of the facts that follow from `Always`, or from one of some other facts.
///
/// # Errors
///
/// `AllocError` if memory runs out, or there are 2^32 implications.
pub fn followers(
    alloc: Global,
    mut rules: Vec<Rule>,
    firsts: &[Fact],
) -> Result<Vec<Option<u32>>, AllocError>
    ensures { IfOk result (λ table. HasFollowers rules.items firsts.now table.items) }
{
    add_firsts(&mut rules, firsts)?;
    let table = reach(alloc, &rules, &Fact::Always)?;
    Ok(table)
}
