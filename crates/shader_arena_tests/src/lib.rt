//! Tests of `shader_arena` through its public items alone.
#![tactic(auto)]

#[cfg(test)]
mod tests;
