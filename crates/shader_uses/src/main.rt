//! Uses of the typing layer, as callers outside of it write them: over the façade alone, and the reader of modules beside it. Each is
//! proved to get what its contract says; the program answers what they say of its input's modules, a line of JSON each.
#![tactic(auto)]

mod analyzed;
mod answers;
mod bounds;
mod built;
mod explained;
mod layouts;
mod overloads;
mod processed;
mod reading;
mod typed;
mod typifying;
mod uniform;
mod validated;

use crate::answers::answers;
use std::io::{self, Read};

fn main(rt: HostRuntime) -> io::Result<()> {
    let mut input = Vec::new(rt.alloc());
    rt.reader().read_to_end(&mut input)?;
    let text = answers(rt.alloc(), input.as_slice())?;
    print!(rt; "{text}")
}
