//! The program `bench`, for measurements alone: repeats a public call whose instructions `scripts/measure_calls` counts.
//!
//! The first line of the input is `CALL ROUNDS [LEVELS]`: the call, the number of repetitions, and the number of nested `If`s to build,
//! since no text nests so deep. The rest is a module as JSON, or a line `NAME TYPE..` for each call of a built-in function. The output is a
//! number to which every round contributes; it is 0 if nothing was done.
#![tactic(auto)]

mod calls;
mod expressions;
mod modules;
mod types;
mod work;

use crate::work::work;
use std::io::{self, Read};

fn main(rt: HostRuntime) -> io::Result<()> {
    let mut input = Vec::new(rt.alloc());
    rt.reader().read_to_end(&mut input)?;
    let done = work(rt.alloc(), input.as_slice())?;
    println!(rt; "{done}")
}
