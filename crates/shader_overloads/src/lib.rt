//! The rules of built-in functions, and how the argument types of a call narrow them.
#![tactic(auto)]

mod any_overload_set;
mod call;
mod combinations;
mod constructor_set;
pub mod laws;
mod list;
mod list_forms;
mod mask;
mod masked;
mod mathfunction;
mod one_bits_iter;
mod overload_set;
mod regular;
mod rule;
mod scalar_set;
pub mod utils;

pub use any_overload_set::AnyOverloadSet;
pub use call::rule_of;
pub use constructor_set::{ConstructorMembers, ConstructorSet, ConstructorSize};
pub use list::{List, rules_fit};
pub use mathfunction::MathOverloads;
pub use one_bits_iter::OneBitsIter;
pub use overload_set::{OverloadSet, SetCall, narrow};
pub use regular::{ConclusionRule, Regular};
pub use rule::{Conclusion, MissingSpecialType, Rule};
pub use scalar_set::{ScalarMembers, ScalarSet};
