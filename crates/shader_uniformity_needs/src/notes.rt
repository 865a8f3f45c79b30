//! What the calls of a body pass to the functions that they call, and which of its needs are violated.
ghost use Rattle.std.specs.Prelude.{◌≡◌, ◌<◌, ◌∷◌, ◌++◌, ℕ, [], IfOk, OnOk, length};
ghost use Rattle.std.specs.List.{flat_map};
ghost use Rattle.shader_uniformity_needs.specs.Notes.{begun_at, fact_for, violations_of, Notes};

use crate::needs::{Need, Pass, Violation};
use shader_uniformity::{BodyLocation, Fact, holds};
use std::alloc::{AllocError, Global};

/// Returns no facts for each of some functions.
pub fn no_facts(alloc: Global, functions: usize) -> Result<Vec<Vec<Fact>>, AllocError>
    ensures length { IfOk result (λ begun. length begun.items ≡ functions) }
    ensures empty { IfOk result (λ begun. (i : ℕ) → begun_at begun.items i ≡ []) }
{
    let mut begun = Vec::with_capacity(alloc, functions)?;
    for _ in 0..functions {
        begun.push(Vec::new(alloc))?;
    }
    Ok(begun)
}

fn add_fact(facts: &mut Vec<Fact>, fact: Fact) -> Result<(), AllocError>
    ensures { OnOk result (facts.new.items ≡ facts.old.items ++ fact ∷ []) }
{
    facts.push(fact)?;
    Ok(())
}

/// Adds a fact with which calls of a function may begin, if the function is among those that are left.
fn add_beginning(begun: &mut Vec<Vec<Fact>>, function: usize, fact: Fact) -> Result<(), AllocError>
    ensures length { OnOk result (length begun.new.items ≡ length begun.old.items) }
    ensures noted { OnOk result ((i : ℕ) → i < length begun.old.items →
        begun_at begun.new.items i ≡ begun_at begun.old.items i ++ fact_for function i fact) }
{
    if function < begun.len() {
        add_fact(&mut begun[function], fact)?;
    }
    Ok(())
}

/// Adds the fact that a call passes to the called function, if its cause is true.
#[tactic(auto, using(crate::proofs::NoteLemmas::notes_one))]
fn note_passed(
    begun: &mut Vec<Vec<Fact>>,
    table: &[Option<u32>],
    pass: &Pass,
) -> Result<(), AllocError>
    ensures { OnOk result (Notes table.now (pass.now ∷ []) begun.old.items begun.new.items) }
{
    if holds(table, &pass.cause) {
        add_beginning(begun, pass.function.index(), pass.beginning)
    } else {
        Ok(())
    }
}

/// Adds the facts that calls pass to the called functions.
pub fn note_all(
    begun: &mut Vec<Vec<Fact>>,
    table: &[Option<u32>],
    passes: &[Pass],
) -> Result<(), AllocError>
    ensures { OnOk result (Notes table.now passes.now begun.old.items begun.new.items) }
{
    for pass in passes {
        note_passed(begun, table, pass)?;
    }
    Ok(())
}

fn add_violation(
    found: &mut Vec<Violation>,
    place: BodyLocation,
    table: &[Option<u32>],
    need: &Need,
) -> Result<(), AllocError>
    ensures { OnOk result (found.new.items ≡ found.old.items ++ violations_of place table.now need.now) }
{
    if holds(table, &need.violated_by) {
        found.push(Violation { place, need: *need })?;
    }
    Ok(())
}

/// Adds the needs of a body that are violated.
pub fn add_violations(
    found: &mut Vec<Violation>,
    place: BodyLocation,
    table: &[Option<u32>],
    needs: &[Need],
) -> Result<(), AllocError>
    ensures { OnOk result (found.new.items ≡ found.old.items ++ flat_map (violations_of place table.now) needs.now) }
{
    for need in needs {
        add_violation(found, place, table, need)?;
    }
    Ok(())
}
