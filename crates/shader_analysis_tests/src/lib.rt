//! Tests of `shader_analysis`, `shader_info` and the policies of `shader_bounds`, by their public items alone.
#![tactic(auto)]

#[cfg(test)]
mod tests;
