//! Fallible copies of values that own lists, texts or maps.

mod expressions;
mod functions;
mod modules;
mod statements;

use crate::{Name, TryCopy};
use std::alloc::{AllocError, Global};

impl TryCopy for Name {
    fn try_copy(&self, alloc: Global) -> Result<Name, AllocError> {
        self.copy(alloc)
    }
}
