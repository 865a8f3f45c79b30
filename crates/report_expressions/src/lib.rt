//! Expressions and statements as lines of WGSL, for diagnostics.
#![tactic(auto)]

mod arguments;
mod calls;
mod forms;
mod heads;
mod line;
mod makers;
mod marked;
mod operands;
mod parts;
mod pieces;
mod references;
mod roles;
mod says;
mod statements;
mod texts;
mod writing;

pub use heads::{Head, head_of};
pub use line::{Line, Source};
pub use makers::{Makers, result_of};
pub use marked::{MarkedText, text_of_line};
