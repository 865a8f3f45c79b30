//! The specification of the analysis: interprocedural definitions, and the laws that connect them with what the analysis computes.
//!
//! A call path (`Calls`) leads from a function through `Call` statements to another. Every result of the analysis is defined over all call
//! paths from a function, without regard to how it is computed: the uses of globals (`Uses`), the pairs of an image and a sampler
//! (`Pairs`), the sources of non-uniform values (`Origins`), whether a function kills (`Kills`), and what it needs of the flow (`Needs`).
//! Disruption, i.e. non-uniform control flow, is the least relation over the path points of one body (`Flow`). `Faults` defines what the
//! analysis rejects.
//!
//! The analysis never looks at a call path. It computes the info of a function from the function and the infos of its callees, as the step
//! equations say (`Steps`). By induction along the calls, which in a well-formed module lead to earlier functions only, infos that meet the
//! step equations are sound and complete for the interprocedural definitions (`Exact`), and so are the faults by these infos (`FaultLaws`).
//! `Disruption` states what the definition of flow is good for: noninterference between two walks that differ in non-uniform choices alone.
#![tactic(auto)]

pub mod laws;
