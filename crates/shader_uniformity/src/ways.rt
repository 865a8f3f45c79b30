//! The shortest way back from a fact to a first one, by implications.
ghost use Rattle.std.specs.Prelude.{◌≡◌, ◌<◌, ◌∷◌, ℕ, [], IfOk, IfSome, OnOk, length};
ghost use Rattle.std.specs.List.Sorted.{IsNonDecreasingBy};
ghost use Rattle.shader_uniformity.specs.Costs.{is_free};
ghost use Rattle.shader_uniformity.specs.Effects.{effect_moment, rules_in};
ghost use Rattle.shader_uniformity.specs.Traces.{IsShortest, IsTraceOf};
ghost use Rattle.shader_uniformity.specs.Ways.{Adds, AreBackward, AreWithin, Begins, Expands, GoesOn, LeadsBack};

use crate::cells::{cell, covers, moment};
use crate::effects::{by_effects, count_until};
use crate::facts::{Fact, Rule};
use crate::reach::width;
use crate::rules::next;
use std::alloc::{AllocError, Global};

/// An implication on a way back.
#[derive(Clone, Copy)]
pub struct Step {
    pub rule: Rule,
    /// The index of the need that its effect meets.
    pub meets: usize,
}

/// A fact that is needed on a way back from the last fact.
#[derive(Clone, Copy)]
pub struct Need {
    pub fact: Fact,
    /// The cost of the way back to it.
    pub cost: u32,
    /// The step that needs it, of which it is the cause. `None` for the last fact.
    pub by: Option<Step>,
}

/// A search for the shortest way back.
#[derive(Drop)]
pub struct Search {
    /// The present cost.
    pub cost: u32,
    /// The needs at the present cost or a lower one, in the order in which they were found.
    pub needs: Vec<Need>,
    /// The needs that cost one more.
    pub next: Vec<Need>,
    /// For each cell, how many of its implications are steps already.
    pub found: Vec<usize>,
}

/// Checks whether an implication costs nothing: it only moves on in time or from block to block.
fn is_free(rule: &Rule) -> bool
    ensures { result ≡ is_free rule.now }
{
    match rule.cause {
        Fact::Apart(_) | Fact::Flow => match rule.effect {
            Fact::Apart(_) => true,
            _ => false,
        },
        Fact::Leaves(_, _) => match rule.effect {
            Fact::Leaves(_, _) | Fact::Apart(_) => true,
            _ => false,
        },
        Fact::Behind(_) => match rule.effect {
            Fact::Holds(_, _) => true,
            _ => false,
        },
        Fact::Holds(_, _) => match rule.effect {
            Fact::Left(_) => true,
            _ => false,
        },
        _ => false,
    }
}

/// Adds the cause of an implication, whose effect meets the need at an index, to the needs.
fn add_need(search: &mut Search, index: usize, rule: &Rule) -> Result<(), AllocError>
    ensures { OnOk result (Adds index (rule.now ∷ []) search.old search.new) }
{
    let fact = rule.cause;
    let by = Some(Step {
        rule: *rule,
        meets: index,
    });
    if is_free(rule) {
        let cost = search.cost;
        search.needs.push(Need { fact, cost, by })?;
    } else {
        let cost = next(search.cost)?;
        search.next.push(Need { fact, cost, by })?;
    }
    Ok(())
}

/// Adds the causes of implications whose effects meet the need at an index.
fn add_needs(search: &mut Search, index: usize, rules: &[Rule]) -> Result<(), AllocError>
    ensures { OnOk result (Adds index rules.now search.old search.new) }
{
    for rule in rules {
        add_need(search, index, rule)?;
    }
    Ok(())
}

/// Adds the causes of all implications whose effects meet the need for a fact, and that aren't steps yet.
fn expand(
    search: &mut Search,
    cells: &[Vec<Rule>],
    index: usize,
    fact: &Fact,
) -> Result<(), AllocError>
    requires within { AreWithin cells.now search.old.found.items }
    requires sorted { (place : ℕ) → IsNonDecreasingBy effect_moment (rules_in cells.now place) }
    ensures { OnOk result (Expands cells.now index fact.now search.old search.new) }
{
    let place = cell(fact);
    if place < cells.len() {
        let rules = &cells[place];
        let start = search.found[place];
        let end = count_until(rules, moment(fact)).max(start);
        add_needs(search, index, &rules[start..end])?;
        search.found[place] = end;
    }
    Ok(())
}

/// Goes on to the needs that cost one more, if no need is left at an index.
fn go_on(search: &mut Search, index: usize) -> Result<(), AllocError>
    ensures { OnOk result (GoesOn index search.old search.new) }
{
    if index == search.needs.len() {
        search.cost = next(search.cost)?;
        search.needs.append(&mut search.next)?;
    }
    Ok(())
}

/// Returns the search in which only the last fact is needed.
fn begin(alloc: Global, cells: usize, last: &Fact) -> Result<Search, AllocError>
    ensures { IfOk result (Begins cells last.now) }
{
    let mut needs = Vec::new(alloc);
    needs.push(Need {
        fact: *last,
        cost: 0,
        by: None,
    })?;
    Ok(Search {
        cost: 0,
        needs,
        next: Vec::new(alloc),
        found: vec![in alloc; 0; cells]?,
    })
}

/// Returns the implications by which the last fact follows from the need at an index, from the last fact back.
fn trace_back(alloc: Global, needs: &[Need], index: usize) -> Result<Vec<Rule>, AllocError>
    requires within { index < length needs.now }
    requires backward { AreBackward needs.now }
    ensures { IfOk result (λ trace. LeadsBack needs.now index trace.items) }
{
    let mut trace = Vec::new(alloc);
    let mut place = index;
    while let Some(step) = needs[place].by {
        trace.push(step.rule)?;
        place = step.meets;
    }
    trace.reverse();
    Ok(trace)
}

/// Returns the shortest trace from the last fact back to the first one, or `None` if the last fact doesn't follow from the first one.
///
/// The needs are expanded in the order of their costs, so an implication first comes up where its cause costs least, and is taken there
/// alone. Of equally short traces, the first by the order of needs and implications is returned.
///
/// # Errors
///
/// `AllocError` if memory runs out, or there are 2^32 implications.
pub fn shortest_trace(
    alloc: Global,
    rules: &[Rule],
    first: &Fact,
    last: &Fact,
) -> Result<Option<Vec<Rule>>, AllocError>
    ensures found { IfOk result (IsTraceOf rules.now first.now last.now) }
    ensures shortest { IfOk result (λ found. IfSome found (λ trace. IsShortest rules.now first.now last.now trace.items)) }
{
    let cells = by_effects(alloc, width(last, rules), rules)?;
    let mut search = begin(alloc, cells.len(), last)?;
    for index in 0..usize::MAX {
        go_on(&mut search, index)?;
        match search.needs.get(index) {
            Some(need) => {
                let fact = need.fact;
                if covers(first, &fact) {
                    return Ok(Some(trace_back(alloc, &search.needs, index)?));
                }
                expand(&mut search, &cells, index, &fact)?;
            }
            None => return Ok(None),
        }
    }
    Err(AllocError)
}
