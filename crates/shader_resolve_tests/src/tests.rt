//! One module for each kind of test.
mod loads;
mod nesting;
mod refusals;
mod texts;
