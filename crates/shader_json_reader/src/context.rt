//! The state of reading, except the current value.
ghost use Rattle.std.specs.Prelude.{◌≢◌};
ghost use Rattle.shader_json_reader.specs.declared.failure.Failure.TheVariants.{OutOfMemory};

use crate::error::Wanted;
use crate::failure::Failure;
use crate::lists::listed;
use std::alloc::Global;

/// What all readers share: the allocator.
#[derive(Clone, Copy)]
pub struct Context {
    /// The allocator of all that is read.
    pub alloc: Global,
}

impl Context {
    /// Returns the context that allocates there.
    pub fn new(alloc: Global) -> Context {
        Context { alloc }
    }

    /// Returns the failure that rejects the current value. Its text lists all names that are allowed there.
    pub fn refused(self, wanted: &'static str) -> Failure
        ensures { result ≢ OutOfMemory }
    {
        Failure::refused(self.alloc, Wanted::Value(listed(wanted)))
    }
}
