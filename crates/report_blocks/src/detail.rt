//! How much of diagnostics is printed.

/// How much of diagnostics is printed.
#[derive(Clone, Copy, Debug, PartialEq, Eq)]
pub struct Detail {
    /// True if a block has the sentence of its code.
    pub explains: bool,
    /// True if each diagnostic has a block, and each of its causes is shown.
    pub shows_all: bool,
}
