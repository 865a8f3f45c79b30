//! Laws on the passes over one function: what they compute meets the step equation of the specification, and what they refuse is
//! exactly a fault. Each is the contract of a function that does nothing.
#![tactic(auto)]

pub mod disruption;
pub mod faults;
pub mod steps;
