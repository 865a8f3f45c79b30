//! The functions and entry points in which a need is violated, by themselves or by what they pass to functions that they call.

use report_places::{BodyPlace, body_text, place_of_body};
use shader_ir::{Function, Items, Module};
use shader_uniformity::reach::reach;
use shader_uniformity::{BodyLocation, Fact, Rule, function_at, holds, rules_at};
use shader_uniformity_needs::{Pass, Violation, demands_at};
use std::alloc::{AllocError, Global};

/// The most functions that a note lists.
const MOST_LISTED: usize = 8;

/// A search for the functions and entry points in which a need is violated, from the first function on.
#[derive(Drop)]
struct Search {
    /// For each function that was searched, the facts with which its calls may begin and then violate the need.
    violating: Vec<Vec<Fact>>,
    /// The functions and entry points in which it is violated.
    found: Vec<BodyLocation>,
}

/// Checks whether two facts with which a call may begin are the same.
fn is_same(fact: &Fact, other: &Fact) -> bool {
    match fact {
        Fact::Flow => matches!(other, Fact::Flow),
        Fact::Argument(index) => matches!(other, Fact::Argument(number) if number == index),
        Fact::Behind(index) => matches!(other, Fact::Behind(number) if number == index),
        _ => false,
    }
}

/// Returns the facts besides `Always` with which calls of a function may begin.
fn beginnings(alloc: Global, function: &Function) -> Result<Vec<Fact>, AllocError> {
    let mut facts = Vec::new(alloc);
    facts.push(Fact::Flow)?;
    let mut index = 0u32;
    for _argument in &function.arguments {
        facts.push(Fact::Argument(index))?;
        facts.push(Fact::Behind(index))?;
        index = index.saturating_add(1);
    }
    Ok(facts)
}

/// Checks whether one of some facts is in a table.
fn holds_any(table: &[Option<u32>], facts: &[Fact]) -> bool {
    for fact in facts {
        if holds(table, fact) {
            return true;
        }
    }
    false
}

impl Search {
    /// Checks whether a call that passes a fact violates the need.
    fn violates(&self, pass: &Pass) -> bool {
        match self.violating.as_slice().get(pass.function.index()) {
            Some(facts) => {
                for fact in facts {
                    if is_same(fact, &pass.beginning) {
                        return true;
                    }
                }
                false
            }
            None => false,
        }
    }

    /// Returns the facts of the body at a place by which the need is violated.
    fn facts_at(
        &self,
        alloc: Global,
        module: &Module,
        violation: &Violation,
        place: BodyLocation,
    ) -> Result<Vec<Fact>, AllocError> {
        let mut facts = Vec::new(alloc);
        if place == violation.place {
            facts.push(violation.need.violated_by)?;
        }
        let demands = demands_at(alloc, module, place)?;
        for pass in &demands.passes {
            if self.violates(pass) {
                facts.push(pass.cause)?;
            }
        }
        Ok(facts)
    }

    /// Searches the body at a place, with facts by which the need is violated. Notes the place if one is true in each call, and returns
    /// those with which a call may begin and then have one.
    fn search(
        &mut self,
        alloc: Global,
        rules: &[Rule],
        facts: &[Fact],
        place: BodyLocation,
        firsts: &[Fact],
    ) -> Result<Vec<Fact>, AllocError> {
        if holds_any(reach(alloc, rules, &Fact::Always)?.as_slice(), facts) {
            self.found.push(place)?;
        }
        let mut violating = Vec::new(alloc);
        for first in firsts {
            if holds_any(reach(alloc, rules, first)?.as_slice(), facts) {
                violating.push(*first)?;
            }
        }
        Ok(violating)
    }

    /// Searches the body at a place, whose calls may begin with some facts.
    fn search_at(
        &mut self,
        alloc: Global,
        module: &Module,
        known: &[Items<Rule>],
        violation: &Violation,
        place: BodyLocation,
        firsts: &[Fact],
    ) -> Result<Vec<Fact>, AllocError> {
        let facts = self.facts_at(alloc, module, violation, place)?;
        if facts.is_empty() {
            return Ok(facts);
        }
        let rules = rules_at(alloc, module, known, place)?;
        self.search(alloc, rules.as_slice(), facts.as_slice(), place, firsts)
    }
}

/// Returns the functions and entry points in which a need of the function at an index is violated, in the order of the module. Only that
/// function and later ones call it.
///
/// # Errors
///
/// `AllocError` if an allocation fails, or a function has 2^32 statements or implications.
fn roots_of(
    alloc: Global,
    module: &Module,
    known: &[Items<Rule>],
    violation: &Violation,
    own: usize,
) -> Result<Vec<BodyLocation>, AllocError> {
    let mut search = Search {
        violating: Vec::new(alloc),
        found: Vec::new(alloc),
    };
    for index in 0..module.functions.len() {
        let violating = if index < own {
            Vec::new(alloc)
        } else {
            let firsts = match function_at(module, index) {
                Some(function) => beginnings(alloc, function)?,
                None => Vec::new(alloc),
            };
            let place = BodyLocation::Function(index);
            search.search_at(alloc, module, known, violation, place, &firsts)?
        };
        // No call passes anything by which the need is violated.
        if index == own && violating.is_empty() {
            return Ok(search.found);
        }
        search.violating.push(violating)?;
    }
    for index in 0..module.entry_points.len() {
        let place = BodyLocation::EntryPoint(index);
        search.search_at(alloc, module, known, violation, place, &[])?;
    }
    Ok(search.found)
}

/// Returns what stands between the names of a list, before the one at an index.
fn separator(index: usize, count: usize) -> &'static str {
    if index == 0 {
        ""
    } else if index.saturating_add(1) == count {
        " and "
    } else {
        ", "
    }
}

/// Returns some functions and entry points in words.
fn list_text(
    alloc: Global,
    module: &Module,
    places: &[BodyLocation],
) -> Result<String, AllocError> {
    let mut text = String::new(alloc);
    let count = places.len();
    for (index, place) in places.iter().enumerate() {
        if index < MOST_LISTED {
            let place: BodyPlace = place_of_body(*place);
            let words = body_text(alloc, module, &place)?;
            let before = if count <= MOST_LISTED {
                separator(index, count)
            } else if index == 0 {
                ""
            } else {
                ", "
            };
            text.push_str(before)?;
            text.push_str(words.as_str())?;
        }
    }
    if count > MOST_LISTED {
        let more = count - MOST_LISTED;
        text.push_str(format!(in alloc; " and {more} more")?.as_str())?;
    }
    Ok(text)
}

/// Returns a note on the functions and entry points, besides the one that is shown, in which a need of a function is violated.
///
/// # Errors
///
/// `AllocError` if an allocation fails, or a function has 2^32 statements or implications.
pub fn others_note(
    alloc: Global,
    module: &Module,
    known: &[Items<Rule>],
    violation: &Violation,
    shown: BodyLocation,
) -> Result<Option<String>, AllocError> {
    let BodyLocation::Function(own) = violation.place else {
        return Ok(None);
    };
    let mut others = Vec::new(alloc);
    for place in roots_of(alloc, module, known, violation, own)?.as_slice() {
        if *place != shown {
            others.push(*place)?;
        }
    }
    if others.is_empty() {
        return Ok(None);
    }
    let list = list_text(alloc, module, others.as_slice())?;
    Ok(Some(format!(in alloc; "the same happens in {list}")?))
}
