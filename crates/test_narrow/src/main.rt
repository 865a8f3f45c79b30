//! A program for tests: answers lines that narrow the rules of a built-in function, by the rules that are left or by their ranks.
#![tactic(auto)]

mod answer;
mod narrowing;
mod ranks;
mod step;

use crate::answer::answer;
use std::io::{self, Read};

fn main(rt: HostRuntime) -> io::Result<()> {
    let mut input = Vec::new(rt.alloc());
    rt.reader().read_to_end(&mut input)?;
    let answer = answer(rt.alloc(), input.as_slice())?;
    print!(rt; "{answer}")
}
