//! Tests of data that needs no module. Items inside modules are covered by rows.
mod alignments;
mod data;
mod refusals;
mod same;
mod scalars;
mod texts;
mod visits;

/// The message of a test that fails only when out of memory.
const OUT_OF_MEMORY: &str = "out of memory";
