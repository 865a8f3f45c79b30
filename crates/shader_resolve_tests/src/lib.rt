//! Tests of `shader_resolve` and `shader_typifier` through their public items alone, for whatever no row of `test_rows` covers.
#![tactic(auto)]

#[cfg(test)]
mod congruence;
#[cfg(test)]
mod tests;
