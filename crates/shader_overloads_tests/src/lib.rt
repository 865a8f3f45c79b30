//! Tests of `shader_overloads` through its public items alone: clauses with concrete values, allocation failures, and behaviour that no
//! clause covers.
#![tactic(auto)]

#[cfg(test)]
mod builders;
#[cfg(test)]
mod tests;
