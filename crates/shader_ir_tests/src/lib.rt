//! Tests of `shader_ir` through its public items alone: allocation failures, and whatever no row of `tests/data/rows` covers.
#![tactic(auto)]

#[cfg(test)]
mod tests;
