//! What a function does together with the functions that it calls, at any depth.

use crate::body::{Body, body_at};
use crate::counts::NeedCounts;
use shader_ir::{Module, Severity};
use shader_uniformity::BodyLocation;
use std::alloc::{AllocError, Global};

/// What a function and those that it calls do. A function that is called more than once counts once.
#[derive(Clone, Copy)]
pub struct Reached {
    /// True if one of them has a `discard`.
    pub discards: bool,
    /// The needs of uniform control flow that no filter exempts.
    pub needs: NeedCounts,
    /// The needs that filters of severity `off` exempt.
    pub off: NeedCounts,
    /// Those that filters of severity `info` exempt.
    pub info: NeedCounts,
    /// Those that filters of severity `warning` exempt.
    pub warning: NeedCounts,
}

impl Reached {
    /// Returns what no function does.
    fn nothing() -> Reached {
        Reached {
            discards: false,
            needs: NeedCounts::none(),
            off: NeedCounts::none(),
            info: NeedCounts::none(),
            warning: NeedCounts::none(),
        }
    }

    /// Adds what a body does.
    fn add(&mut self, body: &Body) {
        self.discards = self.discards || body.discards;
        self.needs.add_all(&body.needs);
        match body.severity {
            Severity::Off => {
                self.off.add_all(&body.filtered);
            }
            Severity::Info => {
                self.info.add_all(&body.filtered);
            }
            Severity::Warning => {
                self.warning.add_all(&body.filtered);
            }
            Severity::Error => {}
        }
    }
}

/// Returns what each function of a module does.
pub fn function_bodies(alloc: Global, module: &Module) -> Result<Vec<Body>, AllocError> {
    let mut bodies = Vec::new(alloc);
    for index in 0..module.functions.len() {
        bodies.push(body_at(alloc, module, BodyLocation::Function(index))?)?;
    }
    Ok(bodies)
}

/// Marks the functions that a body calls.
fn mark_callees(marked: &mut Vec<bool>, body: &Body) {
    for callee in &body.callees {
        let callee = *callee;
        if callee < marked.len() {
            marked[callee] = true;
        }
    }
}

/// Returns whether the function at an index is marked.
fn is_marked(marked: &[bool], index: usize) -> bool {
    match marked.get(index) {
        Some(marked) => *marked,
        None => false,
    }
}

/// Returns which of the functions a body reaches by calls. Each calls only earlier ones.
fn marked_by(alloc: Global, functions: &[Body], body: &Body) -> Result<Vec<bool>, AllocError> {
    let mut marked = Vec::new(alloc);
    for _ in functions {
        marked.push(false)?;
    }
    mark_callees(&mut marked, body);
    for step in 0..functions.len() {
        let index = functions.len() - 1 - step;
        if is_marked(&marked, index) {
            mark_callees(&mut marked, &functions[index]);
        }
    }
    Ok(marked)
}

/// Returns what the body at a place does, together with the functions of the module that it calls.
pub fn reached_from(
    alloc: Global,
    module: &Module,
    functions: &[Body],
    place: BodyLocation,
) -> Result<Reached, AllocError> {
    let body = body_at(alloc, module, place)?;
    let marked = marked_by(alloc, functions, &body)?;
    let mut reached = Reached::nothing();
    reached.add(&body);
    for (index, function) in functions.iter().enumerate() {
        if is_marked(&marked, index) {
            reached.add(function);
        }
    }
    Ok(reached)
}
