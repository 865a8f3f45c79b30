//! The facts that follow from a fact by implications.
ghost use Rattle.std.specs.Prelude.{◌≡◌, ◌<◌, false, All, IfOk, OnOk, length};
ghost use Rattle.shader_uniformity.specs.Cells.{cell, cells_after, cells_with_if, changes, fires, width, HasMarks, StaysSound};

use crate::cells::{at, cell, empty, enter, holds};
use crate::facts::{Fact, Rule};
use crate::rules::next;
use std::alloc::{AllocError, Global};

/// Applies an implication: enters its effect if the table has the cause and not the effect. Returns whether it did.
fn apply(table: &mut Vec<Option<u32>>, rule: &Rule) -> bool
    requires { cell rule.now.effect < length table.old.items }
    ensures length { length table.new.items ≡ length table.old.items }
    ensures table { table.new.items ≡ cells_with_if (fires table.old.items rule.now) table.old.items rule.now.effect }
    ensures fires { result ≡ fires table.old.items rule.now }
{
    let fires = holds(table, &rule.cause) & !holds(table, &rule.effect);
    if fires {
        enter(table, &rule.effect);
    }
    fires
}

/// Applies an implication, and adds its number to the order if it enters its effect. Returns whether it did.
fn note(
    table: &mut Vec<Option<u32>>,
    order: &mut Vec<u32>,
    rule: &Rule,
    number: u32,
) -> Result<bool, AllocError>
    requires { cell rule.now.effect < length table.old.items }
    ensures length { OnOk result (length table.new.items ≡ length table.old.items) }
    ensures table { OnOk result (table.new.items ≡ cells_with_if (fires table.old.items rule.now) table.old.items rule.now.effect) }
    ensures fires { IfOk result (λ new. new ≡ fires table.old.items rule.now) }
{
    let fires = apply(table, rule);
    if fires {
        order.push(number)?;
    }
    Ok(fires)
}

/// Applies each implication once, in the order of the slice. Returns whether one entered its effect.
fn pass(
    table: &mut Vec<Option<u32>>,
    order: &mut Vec<u32>,
    rules: &[Rule],
) -> Result<bool, AllocError>
    requires { All (λ rule. cell rule.effect < length table.old.items) rules.now }
    ensures length { OnOk result (length table.new.items ≡ length table.old.items) }
    ensures table { OnOk result (table.new.items ≡ cells_after rules.now table.old.items) }
    ensures changes { IfOk result (λ changed. changed ≡ changes rules.now table.old.items false) }
{
    let mut changed = false;
    let mut number = 0;
    for rule in rules {
        let fires = note(table, order, rule, number)?;
        changed = changed | fires;
        number = next(number)?;
    }
    Ok(changed)
}

/// Returns a number above the cells of all effects and of a fact.
pub fn width(start: &Fact, rules: &[Rule]) -> usize
    ensures { result ≡ width start.now rules.now }
{
    let mut width = cell(start) + 1;
    for rule in rules {
        width = width.max(cell(&rule.effect) + 1);
    }
    width
}

/// The implications that aren't applied yet, by the cells of their causes.
#[derive(Drop)]
struct Waiting {
    /// The number of the last one in each cell.
    lasts: Vec<Option<u32>>,
    /// For each implication the number of the one before it in its cell.
    before: Vec<Option<u32>>,
}

/// Writes a number into a cell, if there is such a cell.
fn put(numbers: &mut Vec<Option<u32>>, place: usize, number: Option<u32>) {
    if place < numbers.len() {
        numbers[place] = number;
    }
}

/// Returns all implications as pending, in `width` cells.
fn waiting_rules(alloc: Global, width: usize, rules: &[Rule]) -> Result<Waiting, AllocError> {
    let mut lasts = empty(alloc, width)?;
    let mut before = Vec::with_capacity(alloc, rules.len())?;
    let mut number = 0;
    for rule in rules {
        let place = cell(&rule.cause);
        before.push(at(&lasts, place))?;
        put(&mut lasts, place, Some(number));
        number = next(number)?;
    }
    Ok(Waiting { lasts, before })
}

/// Removes the last pending implication of a cell and applies it, if its cause is true. Returns whether it did.
#[tactic(auto, using(crate::proofs::ReachLemmas::stays_same, crate::proofs::ReachLemmas::stays_fired))]
fn take_rule(
    table: &mut Vec<Option<u32>>,
    order: &mut Vec<u32>,
    waiting: &mut Waiting,
    rules: &[Rule],
    place: usize,
) -> Result<bool, AllocError>
    requires { All (λ rule. cell rule.effect < length table.old.items) rules.now }
    ensures length { OnOk result (length table.new.items ≡ length table.old.items) }
    ensures table { OnOk result (StaysSound rules.now table.old.items table.new.items) }
{
    match at(&waiting.lasts, place) {
        Some(number) => match rules.get(number as usize) {
            Some(rule) => {
                if holds(table, &rule.cause) {
                    let earlier = at(&waiting.before, number as usize);
                    put(&mut waiting.lasts, place, earlier);
                    note(table, order, rule, number)?;
                    Ok(true)
                } else {
                    Ok(false)
                }
            }
            None => Ok(false),
        },
        None => Ok(false),
    }
}

/// Applies the pending implications of a cell whose causes are true: all of them, if the implications of the cell are sorted by the
/// moments of their causes.
#[tactic(auto, using(crate::proofs::ReachLemmas::stays_same, crate::proofs::ReachLemmas::stays_on))]
fn take_rules(
    table: &mut Vec<Option<u32>>,
    order: &mut Vec<u32>,
    waiting: &mut Waiting,
    rules: &[Rule],
    place: usize,
) -> Result<(), AllocError>
    requires { All (λ rule. cell rule.effect < length table.old.items) rules.now }
    ensures length { OnOk result (length table.new.items ≡ length table.old.items) }
    ensures table { OnOk result (StaysSound rules.now table.old.items table.new.items) }
{
    for _ in 0..rules.len() {
        if !take_rule(table, order, waiting, rules, place)? {
            return Ok(());
        }
    }
    Ok(())
}

/// Returns the cell of the effect of the implication at this index of an order, if there is one.
fn effect_at(rules: &[Rule], order: &[u32], index: usize) -> Option<usize> {
    match order.get(index) {
        Some(number) => match rules.get(*number as usize) {
            Some(rule) => Some(cell(&rule.effect)),
            None => None,
        },
        None => None,
    }
}

/// Applies the implications whose causes were entered in an order, from an index on, and adds those that enter their effects.
///
/// An implication is pending until its cause is entered and is then applied, so each is applied once. The order grows meanwhile.
#[tactic(auto, using(crate::proofs::ReachLemmas::stays_same, crate::proofs::ReachLemmas::stays_on))]
fn spread(
    alloc: Global,
    table: &mut Vec<Option<u32>>,
    order: &mut Vec<u32>,
    from: usize,
    rules: &[Rule],
) -> Result<(), AllocError>
    requires { All (λ rule. cell rule.effect < length table.old.items) rules.now }
    ensures length { OnOk result (length table.new.items ≡ length table.old.items) }
    ensures table { OnOk result (StaysSound rules.now table.old.items table.new.items) }
{
    let mut waiting = waiting_rules(alloc, table.len(), rules)?;
    for index in from..usize::MAX {
        match effect_at(rules, order, index) {
            Some(place) => take_rules(table, order, &mut waiting, rules, place)?,
            None => return Ok(()),
        }
    }
    Ok(())
}

/// Returns the table of the facts that follow from a first one.
///
/// Applies all implications in the order of the slice, then those that lead backward, then all once more to show that nothing new
/// follows. No other pass is needed if the implications with causes in one cell are sorted by the causes' moments, as those of a
/// function are.
///
/// # Errors
///
/// `AllocError` if memory runs out, or there are 2^32 implications.
pub fn reach(alloc: Global, rules: &[Rule], start: &Fact) -> Result<Vec<Option<u32>>, AllocError>
    ensures { IfOk result (λ table. HasMarks rules.now start.now table.items) }
{
    let width = width(start, rules);
    let mut table = empty(alloc, width)?;
    enter(&mut table, start);
    let mut order = Vec::new(alloc);
    pass(&mut table, &mut order, rules)?;
    // Each round except the last enters a fact.
    for _ in 0..u64::MAX {
        let from = order.len();
        if !pass(&mut table, &mut order, rules)? {
            return Ok(table);
        }
        spread(alloc, &mut table, &mut order, from, rules)?;
    }
    Err(AllocError)
}
