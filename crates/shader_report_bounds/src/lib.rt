//! The report on bounds checks: the accesses of each function that need one under given policies, the checked indexes, and the types of the
//! local variables to which pointers out of bounds are redirected; as JSON, and as text output.
#![tactic(auto)]

mod accesses;
mod checks;
mod function;
pub mod laws;
mod listed;
mod module_bounds;
mod shown;
mod sizes;
mod text;
mod written;

pub use accesses::{AccessCheck, AccessIndex, accesses_of};
pub use function::{FunctionBounds, bounds_of};
pub use module_bounds::{ModuleBounds, find_bounds};
pub use sizes::first_unsized;
pub use text::bounds_text;
