//! One module for each kind of test, and their helpers. Lines of tests/data/lines (call.in, narrow.in and rules.in) test how sets narrow.
mod calls;
mod conclusions;
mod lists;
mod refusals;
mod regular;
mod sets;

pub use crate::builders::{Built, inner};
use shader_arena::{Arena, UniqueArena};
use shader_ir::proc::TypeResolution;
use shader_ir::{Constant, Expression, GlobalCtx, Override, Scalar, Type, VectorSize, mark};
use shader_overloads::{Conclusion, ConstructorSize, OverloadSet, Rule};
use std::alloc::{AllocError, Global};
use std::process::Abort;

/// The message of a test that fails only when out of memory.
pub const OUT_OF_MEMORY: &str = "out of memory";

pub const SCALAR: ConstructorSize = ConstructorSize::Scalar;

pub const VEC2: ConstructorSize = ConstructorSize::Vector(VectorSize::Bi);

pub const VEC3: ConstructorSize = ConstructorSize::Vector(VectorSize::Tri);

pub const MAT3X3: ConstructorSize = ConstructorSize::Matrix {
    columns: VectorSize::Tri,
    rows: VectorSize::Tri,
};

pub const MAT4X4: ConstructorSize = ConstructorSize::Matrix {
    columns: VectorSize::Quad,
    rows: VectorSize::Quad,
};

pub fn is_type(resolution: &TypeResolution, wanted: Built) -> bool {
    match resolution {
        TypeResolution::Handle(_) => false,
        TypeResolution::Value(found) => *found == inner(wanted),
    }
}

/// Returns whether the rule takes arguments of these types and has this result type.
pub fn is_rule(rule: &Rule, arguments: &[Built], gives: Built) -> bool {
    let is_each = rule
        .arguments
        .iter()
        .zip(arguments.iter())
        .all(|(found, wanted)| is_type(found, *wanted));
    match &rule.conclusion {
        Conclusion::Value(found) => {
            is_each && rule.arguments.len() == arguments.len() && *found == inner(gives)
        }
        Conclusion::Predeclared(_) => false,
    }
}

/// A module without types.
#[derive(Drop)]
struct Arenas {
    types: UniqueArena<Type, mark::Type>,
    constants: Arena<Constant, mark::Constant>,
    overrides: Arena<Override, mark::Override>,
    global_expressions: Arena<Expression, mark::Expression>,
}

impl Arenas {
    fn new(alloc: Global) -> Arenas {
        Arenas {
            types: UniqueArena::new(alloc),
            constants: Arena::new(alloc),
            overrides: Arena::new(alloc),
            global_expressions: Arena::new(alloc),
        }
    }

    fn ctx(&self) -> GlobalCtx<'_> {
        GlobalCtx {
            types: &self.types,
            constants: &self.constants,
            overrides: &self.overrides,
            global_expressions: &self.global_expressions,
        }
    }
}

// The tests own few values: where a branch leaves a function, the drop of every value that it owns has to be proved. Hence the queries of a
// set are in helpers, and out of memory ends a test at once.

/// Returns the rules of a set, in a module without types.
pub fn list_rules<S: OverloadSet>(alloc: Global, set: &S) -> Result<Vec<Rule>, AllocError> {
    let arenas = Arenas::new(alloc);
    let rules = set.overload_list(alloc, arenas.ctx());
    drop(arenas);
    rules
}

/// Returns the types that a set allows for the argument at a position, in a module without types.
pub fn list_allowed<S: OverloadSet>(
    alloc: Global,
    set: &S,
    position: usize,
) -> Result<Vec<TypeResolution>, AllocError> {
    let arenas = Arenas::new(alloc);
    let types = set.allowed_args(alloc, position, arenas.ctx());
    drop(arenas);
    types
}

/// Returns the number of items, which are dropped.
pub fn counted<T: Drop>(items: Vec<T>) -> usize {
    let count = items.len();
    drop(items);
    count
}

/// Returns whether a rule remains, and the preferred one takes arguments of these types and has this result type.
pub fn prefers<S: OverloadSet>(
    rt: &impl Abort,
    alloc: Global,
    set: &S,
    arguments: &[Built],
    gives: Built,
) -> bool {
    if set.is_empty() {
        return false;
    }
    let rule = set.most_preferred(alloc).expect(rt, OUT_OF_MEMORY);
    let is_wanted = is_rule(&rule, arguments, gives);
    drop(rule);
    is_wanted
}
